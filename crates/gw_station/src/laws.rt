//! What holds of every client.
ghost use Rattle.std.specs.Prelude.{◌≡◌, ℕ, drop, slice_get, None, Some};
ghost use Rattle.gw_model.specs.Clocks.{Clocks};
ghost use Rattle.gw_station.specs.declared.sending.Sending.{Sending as AnySending};
ghost use Rattle.gw_station.specs.Client.{Client};
ghost use Rattle.gw_station.specs.Pump.{client_with_sent, given, line, together};
ghost use Rattle.gw_station.specs.Quiet.{IsQuiet};

/// Nothing is put out only where nothing waits, or where what waits needs an I format and none may be sent.
pub fn nothing_is_held_back()
    ensures { (clocks : Clocks) (moment : ℕ) (c : Client) → given clocks moment c ≡ None → IsQuiet moment c }
{}

/// What is put out of the line is its front, as much as goes out together, and the others stay in their order.
pub fn the_line_moves()
    ensures { (clocks : Clocks) (moment : ℕ) (c : Client) (first : AnySending) → slice_get (line c) 0 ≡ Some first
        → line (client_with_sent clocks moment first c) ≡ drop (together clocks (line c)) (line c) }
{}
