//! Laws that follow from the definitions alone. Each is the contract of a function with an empty body.
ghost use Rattle.std.specs.Prelude.{◌≡◌, ◌+◌, ◌-◌, ◌*◌, ◌^◌, ◌<◌, ◌≤◌, ◌++◌, ◌∷◌, [], min, ℕ, Bool, true, false, List, length};
ghost use Rattle.ls_frame.specs.Parameters.{Parameters, IsLegal, limit_of};
ghost use Rattle.ls_bits.specs.Bits.{bits_of};
ghost use Rattle.ls_coding.specs.declared.neighbours.Neighbours.{Neighbours};
ghost use Rattle.ls_coding.specs.Samples.{AreSamples, Interrupts};
ghost use Rattle.ls_coding.specs.Numbers.{golomb_parameter};
ghost use Rattle.ls_coding.specs.Contexts.{context_of};
ghost use Rattle.ls_coding.specs.Interruptions.{ri_type_of, interruption_error};
ghost use Rattle.ls_coding.specs.Runs.{order, run_of, run_bits, index_at};
ghost use Rattle.ls_coding.specs.Events.{Event, run, stats_after_events, counts_after_events, run_index_after_events, regular_error_of, regular_word, interruption_word, golomb_bits};
ghost use Rattle.ls_coding.specs.Lawful.{IsLawful};
ghost use Rattle.ls_coding.specs.View.States.{state_of};
ghost use Rattle.ls_coding.specs.View.Reached.{IsReached};

/// The state after any list of events that a scan may have is reached by calls from `State::new`.
pub fn lawful_events_are_reached()
    ensures { (p : Parameters) (events : List Event) → IsLawful p events → IsReached p (state_of p events) }
{}

/// After lawful events, m samples take at most LIMIT * m bits, whichever comes next: one sample of regular mode, a run
/// up to the line's end, or a run together with the sample that interrupts it.
pub fn lawful_events_are_short()
    ensures sample { (p : Parameters) (events : List Event) → IsLegal p → IsLawful p events
        → (neighbours : Neighbours) (sample : ℕ) → AreSamples p.maxval neighbours → sample ≤ p.maxval
        → length (golomb_bits p (regular_word p (stats_after_events p (context_of p neighbours).number events)
        (regular_error_of p (context_of p neighbours) (stats_after_events p (context_of p neighbours).number events) neighbours sample))) ≤ limit_of p.maxval }
    ensures full_run { (p : Parameters) (events : List Event) → IsLegal p → IsLawful p events → (count : ℕ) → 0 < count
        → length (run_bits (run_index_after_events events) (run_of count false)) ≤ limit_of p.maxval * count }
    ensures interrupted_run { (p : Parameters) (events : List Event) → IsLegal p → IsLawful p events
        → (count : ℕ) (neighbours : Neighbours) (sample : ℕ) → AreSamples p.maxval neighbours → Interrupts p.maxval neighbours.a sample
        → length (run_bits (run_index_after_events events) (run_of count true)
        ++ golomb_bits p (interruption_word p (index_at (run_index_after_events events) (run_of count true)) (ri_type_of neighbours)
        (counts_after_events p (ri_type_of neighbours) events) (interruption_error p neighbours sample))) ≤ limit_of p.maxval * (count + 1) }
{}

/// The Golomb parameter is the least k for which N * 2^k is at least A.
pub fn golomb_parameter_is_least()
    ensures reaches { (n a : ℕ) → a ≤ n * 2 ^ 32 → a ≤ n * 2 ^ golomb_parameter n a }
    ensures least { (n a k : ℕ) → a ≤ n * 2 ^ k → golomb_parameter n a ≤ k }
{}

/// A run's bits, one by one: a 1 for 2^J samples, followed by the bits of the rest at the next RUNindex; with fewer
/// samples left, a 1 for these if the run ends with the line, or a 0 and their number in J bits if a sample interrupts
/// it.
pub fn runs_are_read_bit_by_bit()
    ensures one { (index count : ℕ) (interrupted : Bool) → 2 ^ order index ≤ count
        → run_bits index (run_of count interrupted)
        ≡ true ∷ run_bits (min (index + 1) 31) (run_of (count - 2 ^ order index) interrupted) }
    ensures part { (index count : ℕ) → 0 < count → count < 2 ^ order index
        → run_bits index (run_of count false) ≡ true ∷ [] }
    ensures none { (index : ℕ) → run_bits index (run_of 0 false) ≡ [] }
    ensures interrupted { (index count : ℕ) → count < 2 ^ order index
        → run_bits index (run_of count true) ≡ false ∷ bits_of (order index) count }
{}

/// Coding 2^J samples of a run, and then the rest of it, leaves the same state as coding the run at once.
pub fn runs_join()
    ensures { (p : Parameters) (events : List Event) (rest : ℕ) (interrupted : Bool) → let samples = 2 ^ order (run_index_after_events events) in
        state_of p ((events ++ run (run_of samples false) ∷ []) ++ run (run_of rest interrupted) ∷ [])
        ≡ state_of p (events ++ run (run_of (samples + rest) interrupted) ∷ []) }
{}
