//! How many operations of each kind there are, by the words of their calls.
ghost use Rattle.std.specs.Prelude.{◌≡◌, count_by};
ghost use Rattle.search_report.specs.Meaning as meant;

use history_model::Operation;
use history_text::OpWord;

/// How many reads there are.
pub(crate) fn reads(words: &[Option<OpWord>], ops: &[Operation]) -> usize
    ensures { result ≡ count_by (meant.is_read words.now) ops.now }
{
    ops.iter()
        .filter(|op| is_read_word(word_of(words, op)))
        .count()
}

/// How many writes there are, deletes and swaps among them.
pub(crate) fn writes(words: &[Option<OpWord>], ops: &[Operation]) -> usize
    ensures { result ≡ count_by (meant.is_write words.now) ops.now }
{
    ops.iter()
        .filter(|op| is_write_word(word_of(words, op)))
        .count()
}

/// How many cas there are.
pub(crate) fn cas(words: &[Option<OpWord>], ops: &[Operation]) -> usize
    ensures { result ≡ count_by (meant.is_cas words.now) ops.now }
{
    ops.iter()
        .filter(|op| is_cas_word(word_of(words, op)))
        .count()
}

/// The word of an operation's call, where events have these words.
fn word_of(words: &[Option<OpWord>], op: &Operation) -> Option<OpWord>
    ensures { result ≡ meant.word_at words.now op.now.call }
{
    words
        .get(op.call.saturating_sub(2) as usize)
        .copied()
        .unwrap_or(None)
}

fn is_read_word(word: Option<OpWord>) -> bool
    ensures { result ≡ meant.is_read_word word }
{
    matches!(word, Some(OpWord::Read))
}

fn is_write_word(word: Option<OpWord>) -> bool
    ensures { result ≡ meant.is_write_word word }
{
    matches!(word, Some(OpWord::Write | OpWord::Delete | OpWord::Swap))
}

fn is_cas_word(word: Option<OpWord>) -> bool
    ensures { result ≡ meant.is_cas_word word }
{
    matches!(word, Some(OpWord::Cas))
}

/// How many operations have no reply.
pub(crate) fn pending(ops: &[Operation]) -> usize
    ensures { result ≡ count_by meant.is_pending ops.now }
{
    ops.iter().filter(|op| !op.completed).count()
}
