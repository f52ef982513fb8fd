ghost use Rattle.script_text.specs.IsScript.{IsScript};
ghost use Rattle.script_text.specs.ScriptValue.{ScriptValue};
ghost use Rattle.script_text.specs.Spells.{contents_of, Spells};
ghost use Rattle.std.specs.Prelude.{List, ℕ};
ghost use Rattle.script_writer.specs.Canonical.{canonical_text, read_back};

/// The canonical text of a script is read as that script.
pub fn canonical_text_is_read()
    ensures { (v : ScriptValue) → IsScript v → (swaps : List ℕ) ×
        Spells (contents_of (canonical_text v)) (read_back v swaps) }
{}
