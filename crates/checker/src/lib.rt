// An edge checker: it decides which pairs of elements may be joined.
#![tactic(auto)]

ghost use Rattle.std.specs.Prelude.{◌≡◌, Bool};
ghost use Rattle.checker.specs.Laws.{Symmetric};

// A checker means the set of pairs that it passes. The ghost members say which those are, and
// `symmetric` is each checker's proof that it passes a pair both ways round or not at all.
pub trait Checker<E> {
    ghost passes: { Self → E → E → Bool };

    ghost symmetric: { Symmetric passes };

    // Whether the pair is passed. Nothing changes.
    fn check(&self, a: &E, b: &E) -> bool
        ensures { result ≡ passes self.now a.now b.now };
}
