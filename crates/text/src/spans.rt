// How far blanks, a word and a line go.
ghost use Rattle.std.specs.Prelude.{◌≡◌, ◌==◌, length, not};
ghost use Rattle.std.specs.List.{position, take_while};
ghost use Rattle.text.specs.Bytes as bytes;
ghost use Rattle.text.specs.Bytes.{blank};
ghost use Rattle.text.specs.Lines.{without_return};

const LF: u8 = b'\n';

const CR: &[u8] = b"\r";

// Where the first line feed stands.
pub fn line_feed(s: &[u8]) -> Option<usize>
    ensures { result ≡ position (λ c. c == bytes.LF) s.now }
{
    s.iter().position(|c| *c == LF)
}

// A line without the carriage return that stands last in it.
#[tactic(auto, using(crate::proofs::Places::return_last, crate::proofs::Places::other_last))]
pub fn without_return(line: &[u8]) -> &[u8]
    ensures { result.now ≡ without_return line.now }
{
    line.strip_suffix(CR).unwrap_or(line)
}

// How many blanks stand first.
pub fn blanks(s: &[u8]) -> usize
    ensures { result ≡ length (take_while blank s.now) }
{
    s.iter().take_while(|c| crate::is_blank(**c)).count()
}

// How long the word is that stands first.
pub fn word_len(s: &[u8]) -> usize
    ensures { result ≡ length (take_while (λ c. not (blank c)) s.now) }
{
    s.iter().take_while(|c| !crate::is_blank(**c)).count()
}
