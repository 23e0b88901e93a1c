//! What of reading lists of events follows from definitions alone.

ghost use Rattle.std.specs.Prelude.{◌≡◌, ◌++◌, ◌∷◌, [], ℕ, List, Bool};
ghost use Rattle.hierarchy.specs.declared.class.ClassId.{ClassId};
ghost use Rattle.hierarchy.specs.LinkedProgram.{LinkedProgram};
ghost use Rattle.init_core.specs.declared.event.Event.{Event};
ghost use Rattle.init_core.specs.Interleaving.{BeginsLegal, IsLegal};
ghost use Rattle.init_core.specs.ProcedureWord.{ThreadWord};
ghost use Rattle.init_core.specs.Standing.{Standing};
ghost use Rattle.judge.specs.Judged.{IsReadSoFar, IsReadToEnd};
ghost use Rattle.judge.specs.Reading.{IsReadAsBeginning, IsReadAsWhole, Reads};
ghost use Rattle.judge.specs.Verdicts.{Breaks, IsVerdict};
ghost use Rattle.judge.specs.declared.verdict.Rule.{Rule as RuleFacts};
ghost use Rattle.judge.specs.declared.verdict.Verdict.{Verdict as VerdictFacts};
ghost use Rattle.judge.specs.declared.verdict.Verdict.TheVariants as verdicts;

/// The reading of one thread's events is exact: they are read as a beginning exactly where they are the beginning of a
/// word of the thread's main class, and as a whole exactly where they are one. An event leads from one standing of the
/// procedures to one only, so one standing a thread is enough.
pub fn reading_is_exact()
    ensures fronts { (p : LinkedProgram) (t : ℕ) (m : ClassId) (xs ys : List Event) → ThreadWord p t m (xs ++ ys) → IsReadAsBeginning p t m xs }
    ensures wholes { (p : LinkedProgram) (t : ℕ) (m : ClassId) (xs : List Event) → ThreadWord p t m xs → IsReadAsWhole p t m xs }
    ensures front { (p : LinkedProgram) (t : ℕ) (m : ClassId) (xs : List Event) → IsReadAsBeginning p t m xs → (ys : List Event) × ThreadWord p t m (xs ++ ys) }
    ensures whole { (p : LinkedProgram) (t : ℕ) (m : ClassId) (xs : List Event) → IsReadAsWhole p t m xs → ThreadWord p t m xs }
    ensures once { (p : LinkedProgram) (t : ℕ) (a b c : Bool) (s u v : Standing) (e : Event) → Reads p t a s e b u → Reads p t a s e c v → (b ≡ c) × (u ≡ v) }
{}

/// Threads and classes are judged apart: a list is a legal interleaving exactly where each thread's events are read as
/// a whole and each class's history is lawful, and the beginning of one exactly where each thread's events are read as a
/// beginning and each class's history is lawful.
pub fn parts_are_judged_apart()
    ensures legal { (p : LinkedProgram) (mains : List ClassId) (events : List Event) → IsLegal p mains events → IsReadToEnd p mains events }
    ensures whole { (p : LinkedProgram) (mains : List ClassId) (events : List Event) → IsReadToEnd p mains events → IsLegal p mains events }
    ensures beginning { (p : LinkedProgram) (mains : List ClassId) (events : List Event) → BeginsLegal p mains events → IsReadSoFar p mains events }
    ensures front { (p : LinkedProgram) (mains : List ClassId) (events : List Event) → IsReadSoFar p mains events → BeginsLegal p mains events }
{}

/// A verdict says all: each list has one at most, a legal interleaving no other than that it is one, and with an event
/// that breaks a rule, and whatever comes after it, a list is not the beginning of a legal interleaving.
pub fn verdicts_are_exact()
    ensures one { (p : LinkedProgram) (mains : List ClassId) (events : List Event) (v w : VerdictFacts) → IsVerdict p mains events v → IsVerdict p mains events w → v ≡ w }
    ensures legal { (p : LinkedProgram) (mains : List ClassId) (events : List Event) (v : VerdictFacts) → IsLegal p mains events → IsVerdict p mains events v → v ≡ verdicts.Legal }
    ensures least { (p : LinkedProgram) (mains : List ClassId) (before : List Event) (e : Event) (after : List Event) (rule : RuleFacts) → Breaks p mains rule (before ++ e ∷ []) → BeginsLegal p mains (before ++ e ∷ after) → ⊥ }
{}
