//! What a line in words asks for: `t1 Release 3 volume 3000, token 2`.

ghost use Rattle.std.specs.Prelude.{◌≡◌, ℕ, Option, map, IfErr, IfOk, OnErr};
ghost use Rattle.site_base.specs.declared.actor.Actor.{Actor};
ghost use Rattle.site_base.specs.declared.event.Event.{Event};
ghost use Rattle.forecourt_engines.specs.EventNames.{IsRequestText};
ghost use Rattle.forecourt_engines.specs.LineWords.{words_in};
ghost use Rattle.forecourt_engines.specs.declared.words.wrong_word.LineFault.{LineFault};
ghost use Rattle.forecourt_engines.specs.declared.words.wrong_word.WrongWord.{WrongWord};
ghost use Rattle.forecourt_engines.specs.AskedText.{IsAskedText, IsTokenText};

use crate::number::{is_word, split_at_octet};
use crate::words::event::read_event;
use crate::words::event_name::name_of;
use crate::words::parts::{actor_of, token_of};
use crate::words::places::{expect_end, split_first};
use crate::words::splitting::{count_words, split_words};
use crate::words::wrong_word::{LineFault, Wanted, WrongWord};
use app_message::Token;
use site_base::{Actor, Event, NoMemory};
use std::alloc::Global;

/// What a line asks for.
#[derive(Clone, Copy, Debug, PartialEq, Eq)]
pub struct Asked {
    /// Who asks.
    pub actor: Actor,
    /// For what.
    pub event: Event,
    /// The token, if the line names one.
    pub token: Option<Token>,
}

/// Reads what the text of a line asks for: the words of an actor and of an event, and, after a
/// comma, if there is one, those of a token.
pub fn read_asked(alloc: Global, text: &[u8]) -> Result<Asked, LineFault>
    ensures found { IfOk result (λ asked.
        IsAskedText text.now asked.actor asked.event asked.token) }
    ensures other { IfErr result (λ fault. (wrong : WrongWord) → fault ≡ LineFault.Wrong wrong
        → (actor : Actor) → (event : Event) → (token : Option ℕ)
        → ¬ IsAskedText text.now actor event token) }
{
    let Some((front, back)) = split_at_octet(b',', text) else {
        return match read_words(alloc, text) {
            Ok((actor, event)) => {
                let token = None;
                Ok(Asked {
                    actor,
                    event,
                    token,
                })
            }
            Err(fault) => Err(fault),
        };
    };
    let (actor, event) = match read_words(alloc, front) {
        Ok(said) => said,
        Err(fault) => return Err(fault),
    };
    match read_token(alloc, back) {
        Ok(token) => {
            let token = Some(token);
            Ok(Asked {
                actor,
                event,
                token,
            })
        }
        Err(LineFault::Wrong(wrong)) => Err(LineFault::Wrong(wrong.shift_by(count_words(front)))),
        Err(LineFault::NoMemory) => Err(LineFault::NoMemory),
    }
}

/// The actor and the event that the words of a text say.
fn read_words(alloc: Global, text: &[u8]) -> Result<(Actor, Event), LineFault>
    ensures found { IfOk result (λ said. IsRequestText (words_in text.now) said.0 said.1) }
    ensures other { IfErr result (λ fault. (wrong : WrongWord) → fault ≡ LineFault.Wrong wrong
        → (actor : Actor) → (event : Event) → ¬ IsRequestText (words_in text.now) actor event) }
{
    let words = match split_words(alloc, text) {
        Ok(words) => words,
        Err(NoMemory) => return Err(LineFault::NoMemory),
    };
    match read_request(words.as_slice()) {
        Ok(said) => Ok(said),
        Err(wrong) => Err(LineFault::Wrong(wrong)),
    }
}

/// The token that the words of a text say: `token 2`.
fn read_token(alloc: Global, text: &[u8]) -> Result<Token, LineFault>
    ensures found { IfOk result (λ token. IsTokenText (words_in text.now) token) }
    ensures other { IfErr result (λ fault. (wrong : WrongWord) → fault ≡ LineFault.Wrong wrong
        → (token : ℕ) → ¬ IsTokenText (words_in text.now) token) }
{
    let words = match split_words(alloc, text) {
        Ok(words) => words,
        Err(NoMemory) => return Err(LineFault::NoMemory),
    };
    match read_token_words(words.as_slice()) {
        Ok(token) => Ok(token),
        Err(wrong) => Err(LineFault::Wrong(wrong)),
    }
}

/// The token that these words say.
fn read_token_words(words: &[&[u8]]) -> Result<Token, WrongWord>
    ensures found { IfOk result (λ token. IsTokenText (map (λ w. w.now) words.now) token) }
    ensures other { OnErr result ((token : ℕ)
        → ¬ IsTokenText (map (λ w. w.now) words.now) token) }
{
    let (first, rest) = split_first(words, 1, Wanted::Token)?;
    if !is_word(first, b"token") {
        return Err(WrongWord::new(1, Wanted::Token));
    }
    let (second, others) = split_first(rest, 2, Wanted::TokenNumber)?;
    let Some(token) = token_of(second) else {
        return Err(WrongWord::new(2, Wanted::TokenNumber));
    };
    expect_end(others, 3)?;
    Ok(token)
}

/// Reads the actor and the event of these words: `t1 Release 3 volume 3000`.
pub fn read_request(words: &[&[u8]]) -> Result<(Actor, Event), WrongWord>
    ensures found { IfOk result (λ said.
        IsRequestText (map (λ w. w.now) words.now) said.0 said.1) }
    ensures other { OnErr result ((actor : Actor) → (event : Event)
        → ¬ IsRequestText (map (λ w. w.now) words.now) actor event) }
{
    let (first, rest) = split_first(words, 1, Wanted::Actor)?;
    let Some(actor) = actor_of(first) else {
        return Err(WrongWord::new(1, Wanted::Actor));
    };
    let (second, behind) = split_first(rest, 2, Wanted::EventName)?;
    let Some(name) = name_of(second) else {
        return Err(WrongWord::new(2, Wanted::EventName));
    };
    match read_event(name, behind) {
        Ok(event) => Ok((actor, event)),
        Err(wrong) => Err(wrong),
    }
}
