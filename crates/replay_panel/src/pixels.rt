// The framebuffer and the screen as a whole.

// 2^55 - 55.
const MODULUS: u64 = 36028797018963913;

pub(crate) fn checksum(bytes: &[u8]) -> u64 {
    bytes.iter().fold(0, |sum: u64, &byte| {
        (sum % MODULUS * 257 + u64::from(byte) + 1) % MODULUS
    })
}

// Byte i of a picture whose pixel k has the colour first + k modulo 65,536, its low byte first.
fn picture_byte(first: u64, i: usize) -> u8 {
    let colour = first % 65536 + (i / 2 % 16384) as u64;
    if i % 2 == 0 {
        (colour % 256) as u8
    } else {
        (colour / 256 % 256) as u8
    }
}

// What a DMA brings.
pub(crate) fn draw(framebuffer: &mut [u8], first: u64) {
    for (i, byte) in framebuffer.iter_mut().enumerate() {
        *byte = picture_byte(first, i);
    }
}
