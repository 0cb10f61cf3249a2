//! The name of an interface.

ghost use Rattle.std.specs.Prelude.{◌≡◌, ◌≤◌, take};

/// The most octets of a name that is kept. A longer name is ignored.
pub const LONGEST_NAME: usize = 128;

/// `if_name`, the name of an interface.
#[derive(Clone, Copy)]
pub struct InterfaceName {
    pub(crate) octets: [u8; LONGEST_NAME],
    pub(crate) size: usize,
    ghost within: { size ≤ 128 },
}

impl InterfaceName {
    /// Returns the octets of the name, as the file has them.
    pub fn as_bytes(&self) -> &[u8]
        ensures { result.now ≡ take self.now.size self.now.octets }
    {
        &self.octets[..self.size]
    }
}
