// The bytes of a reply.
ghost use Rattle.std.specs.Prelude.{◌≡◌, ◌++◌, [], IfOk, OnOk, codes};
ghost use Rattle.script_words.specs.Replies.{numbered, row_lines, row_count, reply_of};
ghost use Rattle.std.specs.Fmt.{decimal};

use row_keys::{Octets, Texts};
use std::alloc::{AllocError, Global};

/// Why a line is refused.
#[derive(Debug, Drop)]
pub enum Refusal {
    /// What is to be made is there already, under this name.
    Exists(Octets),
    /// The line isn't built yet.
    Unbuilt,
}

/// What a line is answered.
#[derive(Debug, Drop)]
pub enum Answer {
    Ok,
    /// A text for each row.
    Rows(Texts),
    Refused(Refusal),
}

/// The bytes of the reply to line `number`: each of its lines is the number, a space, a text and a line feed. Takes
/// memory for them. Time goes with their count.
pub fn write_reply(alloc: Global, number: u32, answer: &Answer) -> Result<Vec<u8>, AllocError>
    ensures { IfOk result (λ reply. reply.items ≡ reply_of number answer.now) }
{
    let mut reply = Vec::new(alloc);
    match answer {
        Answer::Ok => put_line(alloc, &mut reply, number, b"ok")?,
        Answer::Rows(texts) => put_rows(alloc, &mut reply, number, texts)?,
        Answer::Refused(Refusal::Exists(name)) => {
            let text = exists_text(alloc, name.as_bytes())?;
            put_line(alloc, &mut reply, number, &text)?;
        }
        Answer::Refused(Refusal::Unbuilt) => put_line(alloc, &mut reply, number, b"no unbuilt")?,
    }
    Ok(reply)
}

/// The bytes of the reply to a line that is too long, or one too many.
pub fn write_no_line(alloc: Global, number: u32) -> Result<Vec<u8>, AllocError>
    ensures { IfOk result (λ reply. reply.items ≡ numbered number (codes "no line")) }
{
    let mut reply = Vec::new(alloc);
    put_line(alloc, &mut reply, number, b"no line")?;
    Ok(reply)
}

fn put_line(alloc: Global, reply: &mut Vec<u8>, number: u32, text: &[u8]) -> Result<(), AllocError>
    ensures { OnOk result (reply.new.items ≡ reply.old.items ++ numbered number text.now) }
{
    let digits = number.to_string(alloc)?;
    reply.extend_from_slice(digits.as_bytes())?;
    reply.push(b' ')?;
    reply.extend_from_slice(text)?;
    reply.push(b'\n')?;
    Ok(())
}

fn put_rows(
    alloc: Global,
    reply: &mut Vec<u8>,
    number: u32,
    texts: &Texts,
) -> Result<(), AllocError>
    ensures { OnOk result (reply.new.items ≡ reply.old.items ++ row_lines number texts.now ++ row_count number texts.now) }
{
    for text in texts.as_slice() {
        let row = row_text(alloc, text.as_bytes())?;
        put_line(alloc, reply, number, &row)?;
    }
    put_count(alloc, reply, number, texts.as_slice().len())
}

fn put_count(
    alloc: Global,
    reply: &mut Vec<u8>,
    number: u32,
    count: usize,
) -> Result<(), AllocError>
    ensures { OnOk result (reply.new.items ≡ reply.old.items ++ numbered number (codes "rows " ++ decimal count)) }
{
    let digits = count.to_string(alloc)?;
    let text = joined(alloc, b"rows ", digits.as_bytes())?;
    put_line(alloc, reply, number, &text)
}

fn row_text(alloc: Global, text: &[u8]) -> Result<Vec<u8>, AllocError>
    ensures { IfOk result (λ row. row.items ≡ codes "= " ++ text.now) }
{
    joined(alloc, b"= ", text)
}

fn exists_text(alloc: Global, name: &[u8]) -> Result<Vec<u8>, AllocError>
    ensures { IfOk result (λ text. text.items ≡ codes "no exists " ++ name.now) }
{
    joined(alloc, b"no exists ", name)
}

fn joined(alloc: Global, front: &[u8], back: &[u8]) -> Result<Vec<u8>, AllocError>
    ensures { IfOk result (λ text. text.items ≡ front.now ++ back.now) }
{
    let mut text = front.to_vec(alloc)?;
    text.extend_from_slice(back)?;
    Ok(text)
}
