//! What reading and writing lines are to one another.

ghost use Rattle.std.specs.Prelude.{◌≡◌, ℕ, List, Some};
ghost use Rattle.script_text.specs.declared.line.Line.{Line};
ghost use Rattle.script_text.specs.Line.{line_of};
ghost use Rattle.script_text.specs.Spelling.{Spells, IsWritable, line_text};

/// What reading and writing lines are to one another.
pub fn line_laws()
    // A text is read as a line exactly where it spells it.
    ensures spelled { (text : List ℕ) (line : Line) → Spells text line → line_of text ≡ Some line }
    ensures found { (text : List ℕ) (line : Line) → line_of text ≡ Some line → Spells text line }

    // What is written of a line spells it, and is read back.
    ensures written { (line : Line) → IsWritable line → Spells (line_text line) line }
    ensures back { (line : Line) → IsWritable line → line_of (line_text line) ≡ Some line }
{}
