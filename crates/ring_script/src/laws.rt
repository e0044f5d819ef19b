//! What holds of every input and of every trace.

ghost use Rattle.std.specs.Prelude.{◌≡◌, ℕ, List, Option, Some};
ghost use Rattle.ring_steps.specs.declared.calls.Actor.{Actor};
ghost use Rattle.ring_steps.specs.declared.trace.Trace.{Trace};
ghost use Rattle.ring_script.specs.declared.line.Line.{Line};
ghost use Rattle.ring_script.specs.declared.plan.Plan.{Plan};
ghost use Rattle.ring_script.specs.Grammar.{IsLine};
ghost use Rattle.ring_script.specs.LineForms.{line_of};
ghost use Rattle.ring_script.specs.Plans.{Reads, IsBadLine};
ghost use Rattle.ring_script.specs.Steps.{IsTraceOf};
ghost use Rattle.ring_script.specs.TraceText.{trace_text};

/// A line is found to say exactly what its form says.
pub fn one_form()
    ensures says { (line : List ℕ) (said : Line) → line_of line ≡ Some said → IsLine line said }
    ensures said { (line : List ℕ) (said : Line) → IsLine line said → line_of line ≡ Some said }
{}

/// A text is the input of one plan, or has one bad line, and never both.
pub fn one_reading()
    ensures plan { (text : List ℕ) (p q : Plan) → Reads text p → Reads text q → p ≡ q }
    ensures bad_line { (text : List ℕ) (m n : ℕ) → IsBadLine text m → IsBadLine text n → m ≡ n }
    ensures apart { (text : List ℕ) (plan : Plan) (number : ℕ) → Reads text plan → IsBadLine text number → ⊥ }
{}

/// All traces of a plan have the same text, also those in which an actor is stopped behind it.
pub fn one_trace()
    ensures { (stopped : Option Actor) (plan : Plan) (t u : Trace) → IsTraceOf stopped plan t → IsTraceOf stopped plan u → trace_text t ≡ trace_text u }
{}
