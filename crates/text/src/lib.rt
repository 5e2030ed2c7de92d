// The text in its lent buffer: what an opening and an edit store there.
#![tactic(auto)]

ghost use Rattle.std.specs.Prelude.{◌-◌, ◌≤◌, ◌≡◌, length};
ghost use Rattle.editing.specs.Text.{EditFits, new_length, text_after, opened};

// "Edit (s, e, r), r of k bytes" of a text of n bytes: bytes s to e − 1 give way to r.
#[derive(Clone, Copy)]
pub struct Edit {
    pub n: usize,
    pub s: usize,
    pub e: usize,
    pub k: usize,
    ghost ordered: { s ≤ e },
    ghost within: { e ≤ n },
}

impl Edit {
    // How many bytes go.
    pub fn gone(&self) -> usize
        ensures { result ≡ self.now.e - self.now.s }
    {
        self.e - self.s
    }

    // How many bytes stand behind them.
    pub fn behind(&self) -> usize
        ensures { result ≡ self.now.n - self.now.e }
    {
        self.n - self.e
    }
}

// "bytes s to e − 1 give way to r; buffer bytes past the new length n' become 0." Answers n'.
// It counts r itself and doesn't read edit.k, so that no caller has to show that the two are equal.
pub fn edit_text(text: &mut [u8], edit: &Edit, r: &[u8]) -> usize
    requires { EditFits (length text.old) edit.now.n edit.now.s edit.now.e (length r.now) }
    ensures value { result ≡ new_length edit.now.n edit.now.s edit.now.e (length r.now) }
    ensures text_after { text.new ≡ text_after text.old edit.now.n edit.now.s edit.now.e r.now }
{
    let k = r.len();
    let behind = edit.behind();
    let rest = &mut text[edit.s..];
    buffers::shift(rest, edit.gone(), k, behind);
    buffers::copy(rest, r);
    let end = edit.s + k + behind;
    text[end..].fill(0);
    end
}

// "Open: copies the text, zeroes the rest of the buffer".
pub fn fill(buffer: &mut [u8], text: &[u8])
    requires { length text.now ≤ length buffer.old }
    ensures { buffer.new ≡ opened (length buffer.old) text.now }
{
    buffers::copy(buffer, text);
    buffer[text.len()..].fill(0);
}
