//! Writes a line in words as the request that it asks for.

ghost use Rattle.std.specs.Prelude.{◌≡◌, ◌⊎◌, ◌++◌, ◌∷◌, [], IfErr, IfOk, OnOk};
ghost use Rattle.forecourt_engines.specs.declared.words.wrong_word.LineFault.{LineFault};
ghost use Rattle.forecourt_engines.specs.declared.words.wrong_word.WrongWord.{WrongWord};
ghost use Rattle.forecourt_engines.specs.SpelledLines.{AsksNothing, SaysAnothers, SaysNothing};
ghost use Rattle.forecourt_engines.specs.SpelledLines.{Spells, SpellsRequest};
ghost use Rattle.forecourt_engines.specs.SpelledLines.{token_behind};

use crate::words::asked::read_asked;
use crate::words::event_name::name_of;
use crate::words::parts::actor_of;
use crate::words::places::word_behind;
use crate::words::splitting::is_comment;
use crate::words::wrong_word::{LineFault, Wanted, WrongWord};
use app_message::Token;
use device_map::encode_request;
use hex_lines::put_line;
use site_base::{Actor, NoMemory};
use std::alloc::Global;

/// The place of an event's name in its line.
const NAME_PLACE: usize = 2;

/// Appends the spelling of a line in words, which has no line feed. An empty line or a comment is
/// appended as it is. Any other line is appended as the line of hexadecimal of its request, with
/// the token that it names, or otherwise with `next`. Returns the token for the next line that
/// names none: tokens rise from 1 to 31, and then begin again. After `NoMemory` the text can't be
/// used; a line that asks for nothing appends nothing.
pub fn spell_line(
    alloc: Global,
    line: &[u8],
    next: Token,
    out: &mut Vec<u8>,
) -> Result<Token, LineFault>
    ensures spelled { IfOk result (λ then. Spells line.now next then out.old.items out.new.items) }
    ensures other { IfErr result (λ fault. (wrong : WrongWord) → fault ≡ LineFault.Wrong wrong
        → AsksNothing line.now) }
    ensures silent { IfErr result (λ fault. (wrong : WrongWord) → fault ≡ LineFault.Wrong wrong
        → out.new.items ≡ out.old.items) }
{
    if is_comment(line) {
        return match put_text(line, out) {
            Ok(()) => Ok(next),
            Err(NoMemory) => Err(LineFault::NoMemory),
        };
    }
    spell_request(alloc, line, next, out)
}

/// The same of a line that is no comment.
fn spell_request(
    alloc: Global,
    line: &[u8],
    next: Token,
    out: &mut Vec<u8>,
) -> Result<Token, LineFault>
    ensures spelled { IfOk result (λ then.
        SpellsRequest line.now next then out.old.items out.new.items) }
    ensures other { IfErr result (λ fault. (wrong : WrongWord) → fault ≡ LineFault.Wrong wrong
        → SaysNothing line.now ⊎ SaysAnothers line.now) }
    ensures silent { IfErr result (λ fault. (wrong : WrongWord) → fault ≡ LineFault.Wrong wrong
        → out.new.items ≡ out.old.items) }
{
    let asked = match read_asked(alloc, line) {
        Ok(asked) => asked,
        Err(LineFault::Wrong(wrong)) => return Err(LineFault::Wrong(first_wrong(line, wrong))),
        Err(LineFault::NoMemory) => return Err(LineFault::NoMemory),
    };
    let (token, then) = match asked.token {
        Some(token) => (token, next),
        None => (next, token_behind(next)),
    };
    match encode_request(alloc, token, asked.actor, asked.event) {
        Ok(Some(request)) => match put_line(out, &request) {
            Ok(()) => Ok(then),
            Err(NoMemory) => Err(LineFault::NoMemory),
        },
        Ok(None) => Err(LineFault::Wrong(wrong_name(&asked.actor))),
        Err(NoMemory) => Err(LineFault::NoMemory),
    }
}

/// The first wrong word of a line in which this one is wrong: the name of an event that isn't of
/// its actor's kind stands before whatever is behind it.
fn first_wrong(line: &[u8], wrong: WrongWord) -> WrongWord {
    if wrong.place <= NAME_PLACE {
        return wrong;
    }
    match actor_of_anothers(line) {
        Some(actor) => wrong_name(&actor),
        None => wrong,
    }
}

/// The wrong word where this actor names an event of the other kind of actor.
fn wrong_name(actor: &Actor) -> WrongWord {
    let wanted = match actor {
        Actor::Till(_) => Wanted::Request,
        Actor::Dispenser(_) => Wanted::Report,
    };
    WrongWord::new(NAME_PLACE, wanted)
}

/// The actor of a line that names an event of the other kind of actor.
fn actor_of_anothers(line: &[u8]) -> Option<Actor> {
    let actor = actor_of(word_behind(line, 0)?)?;
    let name = name_of(word_behind(line, 1)?)?;
    let is_dispenser = matches!(actor, Actor::Dispenser(_));
    if name.is_report() == is_dispenser {
        return None;
    }
    Some(actor)
}

/// The token that follows: they rise to 31, and then begin with 1 again.
fn token_behind(token: Token) -> Token
    ensures { result ≡ token_behind token }
{
    let number = token.get();
    if number < 31 {
        return Token::new(number + 1).unwrap();
    }
    Token::new(1).unwrap()
}

/// Appends a line as it is.
fn put_text(line: &[u8], out: &mut Vec<u8>) -> Result<(), NoMemory>
    ensures { OnOk result (out.new.items ≡ out.old.items ++ (line.now ++ 10 ∷ [])) }
{
    out.extend_from_slice(line)?;
    out.push(b'\n')?;
    Ok(())
}
