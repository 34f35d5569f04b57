//! What holds of every object part.
ghost use Rattle.std.specs.Prelude.{◌≡◌, ◌↔◌, ℕ, List, Ok};
ghost use Rattle.dnp_objects.specs.declared.header.Header.{Header as Found};
ghost use Rattle.dnp_objects.specs.Headers.{headers_of, IsPart};

/// A part is the headers that reading it gives, and no others; where reading gives a fault, it is none.
pub fn one_reading()
    ensures { (part : List ℕ) (hs : List Found) → (headers_of part ≡ Ok hs) ↔ IsPart part hs }
{}
