// The four memories that a program lends to what it works.

#[derive(Default, Drop)]
pub struct Memories {
    pub ram: [u8; 65536],
    pub sram: [u8; 65536],
    pub gpio: [u8; 4096],
    pub fb: [u8; 32768],
}
