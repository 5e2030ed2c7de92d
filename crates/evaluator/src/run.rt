// What a run of the evaluator goes over, and how far it has come.
ghost use Rattle.std.specs.Prelude.{◌≤◌, length};

use loaded::LoadedGrammar;

// A loaded grammar over a text, the table that is lent, and the number of pairs whose body was evaluated.
#[derive(Drop)]
pub struct Run<'a, 't> {
    pub grammar: &'a LoadedGrammar,
    pub text: &'a [u8],
    pub table: &'t mut [u64],
    pub count: u64,
    ghost short: { length text.now ≤ 65535 },
}
