use tri_base::Words;

/// What a leg that ran a scan tells its neighbours.
#[derive(Drop)]
pub struct OutSheet {
    /// How many downloads were accepted.
    pub epoch: i64,
    /// Which window of 64 words is shown, from 0 on.
    pub turn: i64,
    /// The program text's length in bytes.
    pub text_length: i64,
    /// How many words the program has.
    pub word_length: i64,
    /// That window of the text and then the words, as they are after the scan.
    pub window: Words,
    /// The places of the words that the scan changed, from 0 on and rising.
    pub addresses: Words,
    /// The number at each of these places after the scan.
    pub values: Words,
    /// The counts that the program drives, in order of the chassis.
    pub outputs: Words,
}
