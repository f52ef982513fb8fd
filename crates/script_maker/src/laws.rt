ghost use Rattle.std.specs.Prelude.{◌≡◌, ◌≤◌, ◌+◌, ℕ, List, length};
ghost use Rattle.tri_base.specs.Limits.{scan_limit};
ghost use Rattle.script_text.specs.IsScript.{IsScript};
ghost use Rattle.script_text.specs.Spells.{contents_of, Spells};
ghost use Rattle.script_writer.specs.Canonical.{canonical_text, read_back};
ghost use Rattle.script_maker.specs.Plants.{generated_points};
ghost use Rattle.script_maker.specs.Programs.{generated_text};
ghost use Rattle.script_maker.specs.Generated.{generated};

/// What is made is a script, so its canonical text is read as that script. The program has 16,384
/// bytes, and the word TEXT stands behind the points.
pub fn generated_is_script()
    ensures script { (number scans : ℕ) → 1 ≤ scans → scans ≤ scan_limit →
        IsScript (generated number scans).value }
    ensures read_again { (number scans : ℕ) → 1 ≤ scans → scans ≤ scan_limit →
        (swaps : List ℕ) × Spells (contents_of (canonical_text (generated number scans).value))
        (read_back (generated number scans).value swaps) }
    ensures program { length generated_text ≡ 16384 }
    ensures line { (number scans : ℕ) →
        (generated number scans).text_line ≡ 2 + length generated_points }
{}
