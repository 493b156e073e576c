//! The line of a select: its offers, its mode and its place.
ghost use Rattle.std.specs.{Prelude.{◌≡◌, ◌<◌, IfOk, IfSome}, Option.option_map};
ghost use Rattle.race_requests.specs.Offers.{chan_of};
ghost use Rattle.race_text.specs.{Least.{says_by, both_say}, Meaning.with_piece, Words.parts_left};
ghost use Rattle.race_script.specs.Offers as spec;
ghost use Rattle.race_script.specs.Reading as reading;

use race_hub::{Ask, Offer, Offers};
use race_records::Decls;
use race_text::{TextCause, chan_in, cut_at, least, number_in, place_in};
use std::alloc::Allocator;

/// The words behind `select`.
#[derive(Clone, Copy)]
pub struct SelectWords<'a> {
    /// Its offers.
    pub offers: &'a [u8],
    /// Whether it has a default.
    pub mode: &'a [u8],
    /// Its place.
    pub place: &'a [u8],
}

// The words behind `select`, where there are three.
pub(crate) fn select_words(rest: Option<&[u8]>) -> Option<SelectWords<'_>>
    ensures { option_map spec.words_read result ≡ spec.select_words (parts_left 32 rest.entry) }
{
    let (offers, rest) = cut_at(rest?, b' ');
    let (mode, rest) = cut_at(rest?, b' ');
    match cut_at(rest?, b' ') {
        (place, None) => Some(SelectWords {
            offers,
            mode,
            place,
        }),
        (_, Some(_)) => None,
    }
}

// An offer as it is spelled: the word of its channel and, where it would send, the word of its value.
fn offer_spelled(piece: &[u8]) -> Option<(&[u8], Option<&[u8]>)>
    ensures { option_map spec.spelled_read result ≡ spec.offer_spelled piece.now }
{
    let (word, rest) = cut_at(piece, b':');
    let (chan, rest) = cut_at(rest?, b':');
    match rest {
        None => {
            if word == b"recv".as_slice() {
                Some((chan, None))
            } else {
                None
            }
        }
        Some(behind) => match cut_at(behind, b':') {
            (value, None) => {
                if word == b"send".as_slice() {
                    Some((chan, Some(value)))
                } else {
                    None
                }
            }
            (_, Some(_)) => None,
        },
    }
}

// What the words behind `select` ask, and the place, or the least cause of them.
pub(crate) fn selected_in<'a, A: Allocator>(
    decls: &Decls<A>,
    words: Option<SelectWords<'a>>,
) -> Result<(Ask, &'a [u8]), TextCause>
    ensures { says_by reading.asked_read result
        ≡ reading.selected_in decls.now.declarations (option_map spec.words_read words.entry) }
{
    let Some(words) = words else {
        return Err(TextCause::WrongCount);
    };
    match select_in(decls, words) {
        Ok(ask) => match place_in(words.place) {
            Ok(place) => Ok((ask, place)),
            Err(cause) => Err(cause),
        },
        Err(first) => match place_in(words.place) {
            Ok(_) => Err(first),
            Err(second) => Err(least(first, second)),
        },
    }
}

fn select_in<A: Allocator>(decls: &Decls<A>, words: SelectWords) -> Result<Ask, TextCause>
    ensures { result ≡ spec.select_in decls.now.declarations (spec.words_read words.entry) }
{
    match offers_in(decls, words.offers) {
        Ok(offers) => match mode_in(words.mode) {
            Ok(has_default) => Ok(Ask::Select(offers, has_default)),
            Err(cause) => Err(cause),
        },
        Err(first) => match mode_in(words.mode) {
            Ok(_) => Err(first),
            Err(second) => Err(least(first, second)),
        },
    }
}

// Whether there is a default, as the mode says.
fn mode_in(word: &[u8]) -> Result<bool, TextCause>
    ensures { result ≡ spec.mode_in word.now }
{
    if word == b"default".as_slice() {
        Ok(true)
    } else if word == b"block".as_slice() {
        Ok(false)
    } else {
        Err(TextCause::BadName)
    }
}

// The offers of a select.
fn offers_in<A: Allocator>(decls: &Decls<A>, word: &[u8]) -> Result<Offers, TextCause>
    ensures { result ≡ spec.offers_in decls.now.declarations word.now }
{
    let mut offers = Ok(Offers::new());
    if word == b"-".as_slice() {
        return offers;
    }
    let mut left = Some(word);
    while let Some(bytes) = left {
        let (piece, others) = cut_at(bytes, b',');
        offers = with_offer(offers, offer_in(decls, piece));
        left = others;
    }
    offers
}

// The offers with one more, or the lesser cause.
fn with_offer(
    offers: Result<Offers, TextCause>,
    offer: Result<Offer, TextCause>,
) -> Result<Offers, TextCause>
    requires { IfOk offer (λ offer. IfSome (chan_of offer) (λ c. c < 65_535)) }
    ensures { result ≡ both_say with_piece offers offer }
{
    match offers {
        Ok(mut got) => match offer {
            Err(cause) => Err(cause),
            Ok(offer) => match got.push(offer) {
                Ok(()) => Ok(got),
                Err(_) => Err(TextCause::TooMany),
            },
        },
        Err(first) => match offer {
            Ok(_) => Err(first),
            Err(second) => Err(least(first, second)),
        },
    }
}

// One offer, whose channel has a number that an offer can have.
fn offer_in<A: Allocator>(decls: &Decls<A>, piece: &[u8]) -> Result<Offer, TextCause>
    ensures offer { result ≡ spec.offer_in decls.now.declarations piece.now }
    ensures low { IfOk result (λ offer. IfSome (chan_of offer) (λ c. c < 65_535)) }
{
    let Some((word, value)) = offer_spelled(piece) else {
        return Err(TextCause::BadName);
    };
    let Some(digits) = value else {
        return match chan_in(decls, word) {
            Ok(chan) => Ok(Offer::Recv(chan)),
            Err(cause) => Err(cause),
        };
    };
    match chan_in(decls, word) {
        Ok(chan) => match number_in(digits, u64::MAX) {
            Ok(value) => Ok(Offer::Send(chan, value)),
            Err(cause) => Err(cause),
        },
        Err(first) => match number_in(digits, u64::MAX) {
            Ok(_) => Err(first),
            Err(second) => Err(least(first, second)),
        },
    }
}
