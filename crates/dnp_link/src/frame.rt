//! A frame of the data link layer.
ghost use Rattle.std.specs.Prelude.{◌≡◌, ◌≤◌};

/// A frame that was read (IEEE Std 1815-2012, clause 9).
#[derive(Clone, Copy)]
pub struct Frame {
    /// The CONTROL octet.
    pub control: u8,
    /// The address that the frame is for.
    pub destination: u16,
    /// The address that it comes from.
    pub source: u16,
    /// The user data, in the first `len` octets; zeros follow in what a feed gives.
    pub user: [u8; 250],
    /// How many octets of user data there are.
    pub len: u8,
    pub ghost fits: { len ≤ 250 },
}

impl Frame {
    ghost use Rattle.dnp_link.specs.FrameContent.{content};

    /// The user data: 0 to 250 octets.
    pub fn user(&self) -> &[u8]
        ensures { result.now ≡ (content self.now).user }
    {
        &self.user[..usize::from(self.len)]
    }
}
