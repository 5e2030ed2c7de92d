// A grammar read once: a reading visits the same nodes many times.
#![tactic(auto)]

mod form;

ghost use Rattle.grammar.specs.Questions.{Lawful};
ghost use Rattle.loaded.specs.Loaded.{Loaded};

pub use form::{Body, LoadedGrammar};

// The grammar of an image. There is no heap: 4,096 is the most numbers of 12 bits.
pub fn load(image: &[u8]) -> LoadedGrammar
    requires { Lawful image.now }
    ensures { Loaded image.now result }
{
    let mut words = [0u32; 4096];
    image::link_words(image, &mut words);
    let header = image::header_of(image);
    let body = image::rule_at(image, header.start);
    LoadedGrammar {
        words,
        rules: header.rules,
        start: Body {
            rule: header.start,
            root: body.root,
        },
    }
}
