/// Readings as they stand in their packet.
#[derive(Clone, Copy)]
pub struct InView<'p> {
    /// The scan time in milliseconds.
    pub dt: i64,
    /// The inputs' counts, in order of the chassis.
    pub values: &'p [i64],
}

/// A running result as it stands in its packet.
#[derive(Clone, Copy)]
pub struct OutView<'p> {
    /// How many downloads were accepted.
    pub epoch: i64,
    /// Which window of 64 words is shown, from 0 on.
    pub turn: i64,
    /// The program text's length in bytes.
    pub text_length: i64,
    /// How many words the program has.
    pub word_length: i64,
    /// That window of the text and then the words.
    pub window: &'p [i64],
    /// Each place that the scan changed, followed by its new number.
    pub pairs: &'p [i64],
    /// The counts that the program drives, in order of the chassis.
    pub outputs: &'p [i64],
}
