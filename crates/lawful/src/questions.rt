// Questions 1 to 3: the header and the size.
ghost use Rattle.std.specs.Prelude.{◌↔◌, IsTrue};
ghost use Rattle.grammar.specs.Questions.{Question1, Question2, Question3};

// "1. Are there 4 bytes, and edition 1?"
pub fn edition_is_1(image: &[u8]) -> bool
    ensures { IsTrue result ↔ Question1 image.now }
{
    let header = image::header_of(image);
    4 <= image.len() && header.edition == 1
}

// "2. Rules 1 to 64, nodes 1 to 1,024, start below rules?"
pub fn counts_in_range(image: &[u8]) -> bool
    ensures { IsTrue result ↔ Question2 image.now }
{
    let header = image::header_of(image);
    (1..=64).contains(&header.rules)
        && (1..=1024).contains(&header.nodes)
        && header.start < header.rules
}

// "3. Are there exactly 4 + 2 × rules + 4 × nodes bytes?"
pub fn size_exact(image: &[u8]) -> bool
    requires { Question2 image.now }
    ensures { IsTrue result ↔ Question3 image.now }
{
    let header = image::header_of(image);
    image.len() == 4 + 2 * header.rules + 4 * header.nodes
}
