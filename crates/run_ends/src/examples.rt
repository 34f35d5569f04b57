//! What a writer took of a line, and the octets of frames and APDUs, by examples.
ghost use Rattle.std.specs.Prelude.{◌≡◌, ℕ, List, [], ◌∷◌, ◌++◌, true, false, take, None, Some, Ok, Err};
ghost use Rattle.dnp_app.specs.Requests.{request as request_of};
ghost use Rattle.iec_apci.specs.Apdu.{Supervisory, Unnumbered};
ghost use Rattle.iec_apci.specs.Buffer.{buffer_of};
ghost use Rattle.iec_apci.specs.declared.apdu.Signal.TheVariants.{TestCon};
ghost use Rattle.gw_steps.specs.declared.step.Reply.TheVariants as replies;
ghost use Rattle.gw_steps.specs.declared.step.StepFault.TheVariants.{Spent};
ghost use Rattle.run_ends.specs.declared.ends.Arrival.TheVariants as arrivals;
ghost use Rattle.run_ends.specs.declared.putting.Put.TheVariants as puts;
ghost use Rattle.run_ends.specs.declared.sent.Sent.TheVariants.{Confirm, Reply, Request, Status};
ghost use Rattle.run_ends.specs.declared.worker_end.WorkerEnd.TheVariants as ends;
ghost use Rattle.run_ends.specs.Ends.{is_fault, is_read_fault, is_write_fault, reading_end};
ghost use Rattle.run_ends.specs.Framed.{status_request};
ghost use Rattle.iec_apci.specs.Joined.{joined, octets_in};
ghost use Rattle.run_ends.specs.PutOut.{is_unwritten, writing_end};
ghost use Rattle.run_ends.specs.Sent.{is_cut_off, segments_sent, sent_octets, Took, TookAll};

/// One worker sent a frame, which was taken whole; then another one sent a frame, of which the first two octets were taken. Where
/// nothing was sent, nothing was taken.
pub fn two_frames()
    ensures took { (own peer : ℕ) (a b : List ℕ) → TookAll own peer (Some []) (Some (a ++ take 2 b))
        ((0, record { what = Reply b; whole = false }) ∷ (1, record { what = Reply a; whole = true }) ∷ []) }
    ensures cut { (a b : List ℕ) → is_cut_off (record { what = Reply b; whole = false }
        ∷ record { what = Reply a; whole = true } ∷ []) ≡ true }
    ensures nothing { (own peer : ℕ) → TookAll own peer (Some []) (Some (1 ∷ [])) [] → ⊥ }
    ensures whole { (a : List ℕ) → is_cut_off (record { what = Reply a; whole = true } ∷ []) ≡ false }
{}

/// Two octets of a frame of three are a front of it, and not the whole.
pub fn front_of_a_frame()
    ensures whole { (own peer segments : ℕ) → Took own peer segments (Some []) (Some (1 ∷ 2 ∷ []))
        (record { what = Reply (1 ∷ 2 ∷ 3 ∷ []); whole = true }) → ⊥ }
    ensures front { (own peer segments : ℕ) → Took own peer segments (Some []) (Some (1 ∷ 2 ∷ []))
        (record { what = Reply (1 ∷ 2 ∷ 3 ∷ []); whole = false }) }
{}

/// What master 1 sends outstation 10, each a frame with its CRCs (IEEE Std 1815-2012, clauses 8 and 9).
#[tactic(auto, unfolding(dnp_link::specs::Frame::frame, dnp_link::specs::Frame::octets_with_crc, dnp_link::specs::Crc::crc_of, dnp_link::specs::Polynomial::remainder, dnp_link::specs::Polynomial::long_division, dnp_transport::specs::Cut::segments_from))]
pub fn frames_on_the_line()
    // DIRECT_OPERATE of a control relay output block, LATCH_ON of index 5: 20 octets behind the transport function's.
    ensures request { sent_octets 1 10 0 (Request (request_of (0xC3 ∷ 0x05 ∷ 0x0C ∷ 0x01 ∷ 0x28 ∷ 0x01 ∷ 0x00 ∷ 0x05 ∷ 0x00
        ∷ 0x03 ∷ 0x01 ∷ 0x00 ∷ 0x00 ∷ 0x00 ∷ 0x00 ∷ 0x00 ∷ 0x00 ∷ 0x00 ∷ 0x00 ∷ 0x00 ∷ [])))
        ≡ 0x05 ∷ 0x64 ∷ 0x1A ∷ 0xC4 ∷ 0x0A ∷ 0x00 ∷ 0x01 ∷ 0x00 ∷ 0x8A ∷ 0x1C
        ∷ 0xC0 ∷ 0xC3 ∷ 0x05 ∷ 0x0C ∷ 0x01 ∷ 0x28 ∷ 0x01 ∷ 0x00 ∷ 0x05 ∷ 0x00
        ∷ 0x03 ∷ 0x01 ∷ 0x00 ∷ 0x00 ∷ 0x00 ∷ 0x00 ∷ 0xDD ∷ 0xC8
        ∷ 0x00 ∷ 0x00 ∷ 0x00 ∷ 0x00 ∷ 0x00 ∷ 0xFF ∷ 0xFF ∷ [] }
    // A confirmation behind 63 segments has the sequence number 63, and behind 64 of them 0.
    ensures confirmation { sent_octets 1 10 63 (Confirm (0xC3 ∷ 0x00 ∷ []))
        ≡ 0x05 ∷ 0x64 ∷ 0x08 ∷ 0xC4 ∷ 0x0A ∷ 0x00 ∷ 0x01 ∷ 0x00 ∷ 0xFC ∷ 0x42
        ∷ 0xFF ∷ 0xC3 ∷ 0x00 ∷ 0x02 ∷ 0x91 ∷ [] }
    ensures around { sent_octets 1 10 64 (Confirm (0xC3 ∷ 0x00 ∷ []))
        ≡ 0x05 ∷ 0x64 ∷ 0x08 ∷ 0xC4 ∷ 0x0A ∷ 0x00 ∷ 0x01 ∷ 0x00 ∷ 0xFC ∷ 0x42
        ∷ 0xC0 ∷ 0xC3 ∷ 0x00 ∷ 0x98 ∷ 0x26 ∷ [] }
    // REQUEST_LINK_STATUS.
    ensures status { status_request 1 10 ≡ 0x05 ∷ 0x64 ∷ 0x05 ∷ 0xC9 ∷ 0x0A ∷ 0x00 ∷ 0x01 ∷ 0x00 ∷ 0xFE ∷ 0xDA ∷ [] }
{}

/// Two confirmations of a line, the second behind one segment. The request for the status of the link carries no segment, and one
/// that wasn't taken whole doesn't count: the next one has its number.
pub fn segments_on_the_line()
    ensures took { TookAll 1 10 (Some [])
        (Some (sent_octets 1 10 0 (Confirm (0xC3 ∷ 0x00 ∷ [])) ++ sent_octets 1 10 1 (Confirm (0xC4 ∷ 0x00 ∷ []))))
        ((0, record { what = Confirm (0xC4 ∷ 0x00 ∷ []); whole = true })
        ∷ (0, record { what = Confirm (0xC3 ∷ 0x00 ∷ []); whole = true }) ∷ []) }
    ensures counted { segments_sent ((0, record { what = Confirm (0xC4 ∷ 0x00 ∷ []); whole = false })
        ∷ (0, record { what = Status; whole = true })
        ∷ (1, record { what = Request (request_of (0xC0 ∷ 0x18 ∷ [])); whole = true }) ∷ []) ≡ 1 }
{}

/// The octets of TESTFR con, and these with those of an S format behind them.
pub fn octets_of_apdus()
    ensures one { octets_in (buffer_of (Unnumbered TestCon)) ≡ 0x68 ∷ 0x04 ∷ 0x83 ∷ 0x00 ∷ 0x00 ∷ 0x00 ∷ [] }
    ensures two { joined (buffer_of (Unnumbered TestCon) ∷ buffer_of (Supervisory 1) ∷ [])
        ≡ 0x68 ∷ 0x04 ∷ 0x83 ∷ 0x00 ∷ 0x00 ∷ 0x00 ∷ 0x68 ∷ 0x04 ∷ 0x01 ∷ 0x00 ∷ 0x02 ∷ 0x00 ∷ [] }
{}

/// A reader ends where the octets end or a read fails, and not by octets or since none come yet. A writer ends by a failed write, or
/// where no further step can be counted or it is to stop; not by a reply that is no APDU, nor since there may be more.
pub fn how_workers_end()
    ensures reading { (n : ℕ) → (reading_end (arrivals.Octets n) ≡ None) × (reading_end arrivals.Later ≡ None)
        × (reading_end arrivals.End ≡ Some ends.EndOfInput) × (reading_end arrivals.Fault ≡ Some ends.ReadFault) }
    ensures failed_read { (is_fault arrivals.Fault ≡ true) × (is_read_fault (Some ends.ReadFault) ≡ true)
        × (is_read_fault (Some ends.EndOfInput) ≡ false) }
    ensures writing { (writing_end (puts.Ended (Some (Ok replies.Nothing))) ≡ None) × (writing_end puts.More ≡ None)
        × (writing_end (puts.Ended (Some (Err Spent))) ≡ Some ends.Stopping) × (writing_end (puts.Ended None) ≡ Some ends.Stopping)
        × (writing_end puts.Unwritten ≡ Some ends.WriteFault) }
    ensures failed_write { (is_unwritten (Some puts.Unwritten) ≡ true) × (is_write_fault (Some ends.WriteFault) ≡ true)
        × (is_write_fault (Some ends.Stopping) ≡ false) }
{}
