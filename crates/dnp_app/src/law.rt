//! What holds of every fragment, and of every request.
ghost use Rattle.std.specs.Prelude.{◌≡◌, ◌↔◌, ◌<◌, ◌^◌, ℕ, List, drop, Option, Some, None, true};
ghost use Rattle.gw_model.specs.declared.control.Act.{Act};
ghost use Rattle.dnp_app.specs.declared.echoed.Echo.{Echo as Echoed};
ghost use Rattle.dnp_app.specs.declared.operation.Operation.{Operation};
ghost use Rattle.dnp_app.specs.Asking.{Asking, asking_of};
ghost use Rattle.dnp_app.specs.Echo.{IsEcho, command_in, echo_of, is_taken};
ghost use Rattle.dnp_app.specs.Operating.{operating_of};
ghost use Rattle.dnp_app.specs.Requests.{control_octets};

/// A fragment echoes the command that reading it gives, and no other; where reading gives none, it echoes none.
pub fn one_echo()
    ensures { (octets : List ℕ) (e : Echoed) → (echo_of octets ≡ Some e) ↔ IsEcho (drop 4 octets) e }
{}

/// An echo says that an act was taken where it is the command in the request, status 0 included, and nowhere else.
pub fn taken_as_sent()
    ensures { (operation : Operation) (index : ℕ) (act : Act) (sequence : ℕ) (e : Option Echoed) → index < 2 ^ 16
        → (is_taken index act e ≡ true) ↔ (e ≡ command_in (drop 2 (control_octets operation index act sequence))) }
{}

/// A request that asks for something else operates nothing.
pub fn controls_apart()
    ensures { (octets : List ℕ) (a : Asking) → asking_of octets ≡ Some a → operating_of octets ≡ None }
{}
