use crate::refusal::Refusal;
use std::alloc::Global;
use tri_base::{Name, NoMemory, Text, Touched, Words};

/// What runs programs over the points of a chassis. A program is seen as the text that it stands
/// for, and what it does as functions of that text. Where a call asks that a text builds, it is
/// over this engine's points.
pub trait Engine: Drop {
    ghost use Rattle.std.specs.Prelude.{◌≡◌, ◌<◌, ◌≤◌, ◌≤ℤ◌, pos, List, ℕ, None, length, IfOk};
    ghost use Rattle.std.specs.List.{All};
    ghost use Rattle.tri_base.specs.declared.point.Point.{Point};
    ghost use Rattle.tri_base.specs.Downloads.{Download};
    ghost use Rattle.tri_base.specs.Rows.{HasRoom, KeepsRoom};
    ghost use Rattle.tri_base.specs.Noted.{restored};
    ghost use Rattle.chassis.specs.Points.{inputs_of, outputs_of};
    ghost use Rattle.chassis.specs.Ranges.{HoldsZero};
    ghost use Rattle.engine_face.specs.Meaning.{Meaning, NamesKnown, changes};
    ghost use Rattle.engine_face.specs.Laws.{IsMeaning};
    ghost use Rattle.engine_face.specs.Answers.{Builds};
    ghost use Rattle.tri_base.specs.Limits.{scan_time_limit};

    /// A text that was built.
    type Program: Drop;

    /// The points that programs run over. What programs mean depends on nothing else of an engine.
    ghost points: { Self → List Point };

    /// The text that a program stands for.
    ghost text_of: { Self.Program → List ℕ };

    /// What programs mean over points.
    ghost meaning: { List Point → Meaning };

    /// A program that stands for the text, or the first refusal.
    fn build(&self, alloc: Global, text: &Text) -> Result<Self::Program, Refusal>
        ensures { let m = meaning (points self.now) in
            Builds text_of (m.builds text.now.list) text.now.list result };

    /// A program that stands for the text and may take the place of another, or the first refusal.
    /// A rename has a tag's name in the old program and the name that it gets in the new one.
    fn change(
        &self,
        alloc: Global,
        old: &Self::Program,
        text: &Text,
        renames: &[(Name, Name)],
    ) -> Result<Self::Program, Refusal>
        requires { (meaning (points self.now)).builds (text_of old.now) ≡ None }
        ensures { let m = meaning (points self.now) in
            let download : Download = record { text = text.now.list; renames = renames.now } in
            Builds text_of (changes m (text_of old.now) download) text.now.list result };

    /// Lends the text that a program stands for.
    fn text<'p>(&self, program: &'p Self::Program) -> &'p Text
        ensures { result.now.list ≡ text_of program.now };

    /// How many words a program's memory has.
    fn word_count(&self, program: &Self::Program) -> usize
        requires { (meaning (points self.now)).builds (text_of program.now) ≡ None }
        ensures { result ≡ (meaning (points self.now)).word_count (text_of program.now) };

    /// The words that a program starts with.
    fn first(&self, alloc: Global, program: &Self::Program) -> Result<Words, NoMemory>
        requires { (meaning (points self.now)).builds (text_of program.now) ≡ None }
        ensures { let m = meaning (points self.now) in
            IfOk result (λ words. words.list ≡ m.first (text_of program.now)) };

    /// The words that a new program goes on with where it takes the place of an old one.
    fn carry(
        &self,
        alloc: Global,
        old: &Self::Program,
        new: &Self::Program,
        renames: &[(Name, Name)],
        words: &Words,
    ) -> Result<Words, NoMemory>
        requires old { (meaning (points self.now)).builds (text_of old.now) ≡ None }
        requires new { (meaning (points self.now)).builds (text_of new.now) ≡ None }
        requires names { let m = meaning (points self.now) in
            let download : Download = record { text = text_of new.now; renames = renames.now } in
            NamesKnown m (text_of old.now) download }
        requires words { let m = meaning (points self.now) in
            length words.now.list ≡ m.word_count (text_of old.now) }
        ensures { let m = meaning (points self.now) in
            let download : Download = record { text = text_of new.now; renames = renames.now } in
            let carried = m.carried (text_of old.now) download words.now.list in
            IfOk result (λ words. words.list ≡ carried) };

    /// One scan: from one value for each input point and a scan time in milliseconds, the words
    /// that are left, one value for each output point in its range, the stores that were made and
    /// the flag ARITH: whether a computed number or an index was clamped, or a divisor was 0. It
    /// empties `outputs` and `touched` first and takes no memory.
    fn scan(
        &self,
        program: &Self::Program,
        words: &mut Words,
        inputs: &Words,
        dt: i64,
        outputs: &mut Words,
        touched: &mut Touched,
    ) -> bool
        requires program { (meaning (points self.now)).builds (text_of program.now) ≡ None }
        requires words { let m = meaning (points self.now) in
            length words.old.list ≡ m.word_count (text_of program.now) }
        requires inputs { length inputs.now.list ≡ length (inputs_of (points self.now)) }
        requires from { pos 0 ≤ℤ dt }
        requires to { dt ≤ℤ scan_time_limit }
        requires room { HasRoom (length (outputs_of (points self.now))) outputs.old }
        requires touched { let m = meaning (points self.now) in
            m.word_count (text_of program.now) ≤ touched.old.size }
        ensures words { let m = meaning (points self.now) in let t = text_of program.now in
            words.new.list ≡ (m.scanned t words.old.list inputs.now.list dt).words }
        ensures outputs { let m = meaning (points self.now) in let t = text_of program.now in
            outputs.new.list ≡ (m.scanned t words.old.list inputs.now.list dt).outputs }
        ensures flag { let m = meaning (points self.now) in let t = text_of program.now in
            result ≡ (m.scanned t words.old.list inputs.now.list dt).flag }
        ensures stores { let m = meaning (points self.now) in let t = text_of program.now in
            touched.new.pairs ≡ m.stored t words.old.list inputs.now.list dt }
        // what the laws say of these, so that no caller has to cite a law
        ensures word_number { length words.new.list ≡ length words.old.list }
        ensures output_number { length outputs.new.list ≡ length (outputs_of (points self.now)) }
        ensures within { All (λ pair. pair.0 < length words.old.list) touched.new.pairs }
        ensures restores { restored touched.new.pairs words.new.list ≡ words.old.list }
        // the room that is kept
        ensures size { touched.new.size ≡ touched.old.size }
        ensures words_room { words.new.spare ≡ words.old.spare }
        ensures outputs_room { KeepsRoom outputs.old outputs.new };

    /// The laws of the meaning, over points whose ranges hold 0.
    ghost lawful: { (ps : List Point) → All HoldsZero ps → IsMeaning ps (meaning ps) };
}
