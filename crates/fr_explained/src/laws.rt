// The laws of runs that explain a trace.
ghost use Rattle.std.specs.Prelude.{◌≡◌, ◌≤◌, ◌+◌, ℕ, List};
ghost use Rattle.fr_program.specs.Program.{Program};
ghost use Rattle.fr_events.specs.declared.trace.Trace.{Trace as TraceOf};
ghost use Rattle.fr_explained.specs.Alone.{NoneExplains};
ghost use Rattle.fr_explained.specs.Explains.{Explains};
ghost use Rattle.fr_explained.specs.declared.item.Item.{Item as ItemOf};

/// Where some items explain so many events, some explain fewer.
pub fn a_beginning_is_explained()
    ensures { (P : Program) (e : TraceOf) (n k : ℕ) (items : List ItemOf) → k ≤ n → Explains P e n items → (beginning : List ItemOf) × Explains P e k beginning }
{}

/// How many events can be explained at the most is one number: where so many can be and one more can't, and so it is of another number,
/// both are the same. So the first event that can't be followed is one.
pub fn the_first_that_fails_is_one()
    ensures { (P : Program) (e : TraceOf) (n m : ℕ) (items others : List ItemOf) →
        Explains P e n items → NoneExplains P e (n + 1) → Explains P e m others → NoneExplains P e (m + 1) → n ≡ m }
{}
