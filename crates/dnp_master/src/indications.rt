//! Internal indications (IEEE Std 1815, 4.2.2.6).
ghost use Rattle.std.specs.Prelude.{◌≡◌, slice_index};
ghost use Rattle.dnp_master.specs.Master.{no_indications};
ghost use Rattle.dnp_master.specs.Fragments.{indications_of};

/// The internal indications that the master acts on.
#[derive(Clone, Copy)]
pub struct Indications {
    /// Events of class 1, 2 or 3 wait: IIN1.1 to IIN1.3.
    pub events: bool,
    /// The outstation's clock is to be set: IIN1.4.
    pub need_time: bool,
    /// The outstation restarted: IIN1.7.
    pub restart: bool,
    /// An event buffer overflowed: IIN2.3.
    pub overflow: bool,
}

impl Indications {
    /// None of them is set.
    pub fn none() -> Indications
        ensures { result ≡ no_indications }
    {
        Indications {
            events: false,
            need_time: false,
            restart: false,
            overflow: false,
        }
    }

    /// Those in the two octets of a response.
    pub fn of(octets: [u8; 2]) -> Indications
        ensures { result ≡ indications_of (slice_index octets 0) (slice_index octets 1) }
    {
        let [first, second] = octets;
        Indications {
            events: first / 2 % 8 != 0,
            need_time: first / 16 % 2 == 1,
            restart: first / 128 % 2 == 1,
            overflow: second / 8 % 2 == 1,
        }
    }
}
