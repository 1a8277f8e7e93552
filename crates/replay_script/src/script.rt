// The script that is laid down.
use lines::lent;

// What is asked for has no room.
#[derive(Clone, Copy, Debug, PartialEq, Eq)]
pub struct TooLong;

// The bytes are the first of these, as many as the length says.
#[derive(Default, Drop)]
pub struct Script {
    bytes: [u8; 16384],
    length: u64,
}

// The eight bytes of a value, the lowest first. What passes the end is dropped.
fn put_bytes(script: &mut [u8], at: usize, value: u64) {
    for (to, from) in script.iter_mut().skip(at).zip(value.to_le_bytes()) {
        *to = from;
    }
}

impl Script {
    // So many zeros in its place, where there is room for them.
    pub(crate) fn lay(&mut self, length: u64) -> Result<(), TooLong> {
        if length > 16384 {
            return Err(TooLong);
        }
        self.bytes.fill(0);
        self.length = length;
        Ok(())
    }

    pub(crate) fn bytes(&self) -> &[u8] {
        let n = lent(self.length, &self.bytes);
        &self.bytes[..n]
    }

    pub(crate) fn put(&mut self, at: usize, value: u64) {
        let n = lent(self.length, &self.bytes);
        put_bytes(&mut self.bytes[..n], at, value);
    }
}
