// What the evaluation of a start pair goes over, and how far it has come.
ghost use Rattle.std.specs.Prelude.{◌≤◌, length};
ghost use Rattle.grammar.specs.Questions.{Lawful};

// The start pair of a lawful image over a text, the records that are lent, and the number of pairs whose body was evaluated.
#[derive(Drop)]
pub struct StartPair<'a, 't> {
    pub image: &'a [u8],
    pub text: &'a [u8],
    pub table: &'t mut [u64],
    pub count: u64,
    ghost lawful: { Lawful image.now },
    ghost short: { length text.now ≤ 65535 },
}
