//! Laws of lines: each is what a function with an empty body ensures.

ghost use Rattle.std.specs.Prelude.{◌≡◌, ◌⊎◌};
ghost use Rattle.sr_script.specs.LineSays.{LineSays, IsLineFault, IsMemory};
ghost use Rattle.sr_script.specs.declared.line.Line.{Line as Said};
ghost use Rattle.sr_script.specs.declared.line.LineFault.{LineFault as Refusal};

/// A line says at most one thing.
pub fn line_says_one_thing(line: &[u8])
    ensures { (a : Said) (b : Said) → LineSays line.now a → LineSays line.now b → a ≡ b }
{}

/// A line that says something is refused only where memory runs out.
pub fn said_is_not_refused(line: &[u8])
    ensures { (said : Said) (fault : Refusal) → LineSays line.now said → IsLineFault line.now fault
        → IsMemory fault }
{}

/// A line has at most one fault, memory aside.
pub fn fault_is_unique(line: &[u8])
    ensures { (a : Refusal) (b : Refusal) → IsLineFault line.now a → IsLineFault line.now b
        → (a ≡ b) ⊎ IsMemory a ⊎ IsMemory b }
{}
