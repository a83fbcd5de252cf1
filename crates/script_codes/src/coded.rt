// A command's bytes as a value.

ghost use Rattle.std.specs.Prelude.{◌≡◌, ◌≤◌, length, take};

// The bytes of a command, which are the first `length` of these: there is no heap for a list of them.
#[derive(Clone, Copy, Debug)]
pub struct Coded {
    pub bytes: [u8; 4],
    pub length: usize,
    ghost within: { length ≤ 4 },
}

impl Coded {
    // At most four bytes.
    pub(crate) fn new(bytes: &[u8]) -> Coded
        requires { length bytes.now ≤ 4 }
        ensures { (result.length ≡ length bytes.now) × (take result.length result.bytes ≡ bytes.now) }
    {
        let mut all = [0; 4];
        all[..bytes.len()].copy_from_slice(bytes);
        Coded {
            bytes: all,
            length: bytes.len(),
        }
    }

    // The command's bytes.
    pub fn as_slice(&self) -> &[u8]
        ensures { result.now ≡ take self.now.length self.now.bytes }
    {
        &self.bytes[..self.length]
    }
}
