// Calls with their ledger and the bucket that they share, driven by words.
use crate::news::news_of;
use crate::plans::{change, throttle_of};
use crate::reported::{report_acts, report_facts, report_reply, report_row};
use a6_numbers::Tokens;
use attempt_ledger::{Ledger, Placed};
use bytes::BytesMut;
use call_core::{Call, CallAct};
use grpc_base::{Chosen, EndCause, Items, Metadata, Moment, Octets, Reply, Request, Text};
use ledger_stamps::{add_call, add_link};
use std::alloc::Global;
use std::test::Fail;

/// A word in the middle of all, which spreads a wait to itself.
const MIDDLE: u64 = 1 << 63;

/// The calls of a channel, of one configuration and one bucket.
#[derive(Drop)]
pub struct Fixture {
    pub alloc: Global,
    pub ledger: Ledger,
    pub calls: Vec<Call>,
    pub chosen: Chosen,
    pub tokens: Option<Tokens>,
    /// The random word of the next end.
    word: u64,
    now: Moment,
    /// The bytes of the links so far.
    seen: u64,
}

/// The word of a step at a place.
pub fn word_at<'a>(words: &[&'a str], place: usize) -> Result<&'a str, Fail> {
    match words.get(place) {
        Some(word) => Ok(*word),
        None => Err("a word is missing".into()),
    }
}

/// The number of a step at a place.
pub fn number(words: &[&str], place: usize) -> Result<u64, Fail> {
    Ok(word_at(words, place)?.parse::<u64>()?)
}

/// So many bytes.
pub fn of_len(alloc: Global, len: u64) -> Result<Octets, Fail> {
    let mut bytes = Vec::new(alloc);
    bytes.resize(usize::try_from(len)?, 7)?;
    Ok(Octets::of_vec(bytes)?)
}

/// The index of a number that counts from 1.
fn index_of(number: u64) -> Result<usize, Fail> {
    let index = number.checked_sub(1).ok_or("no number")?;
    Ok(usize::try_from(index)?)
}

/// What a step replies and asks for.
type Report = (Reply, Items<CallAct>);

impl Fixture {
    pub fn new(alloc: Global, chosen: Chosen) -> Result<Fixture, Fail> {
        let mut ledger = Ledger::new(alloc);
        let _link = add_link(&mut ledger.links, 1, 1)?;
        Ok(Fixture {
            alloc,
            ledger,
            calls: Vec::new(alloc),
            chosen,
            tokens: chosen.throttle.map(Tokens::new),
            word: MIDDLE,
            now: Moment::new(0).ok_or("no moment")?,
            seen: 0,
        })
    }

    /// Makes the step that these words name, at the moment of the first one; reports what it replied and asked for.
    pub fn act(&mut self, words: &[&str]) -> Result<String, Fail> {
        self.turn_clock(number(words, 0)?)?;
        let verb = word_at(words, 1)?;
        match verb {
            "begin" => self.begin(words),
            "row" => report_row(self, number(words, 2)?),
            "feed" => self.feed(words),
            "tells" => report_facts(self, number(words, 2)?),
            _ => self.act_further(verb, words),
        }
    }

    fn turn_clock(&mut self, nanos: u64) -> Result<(), Fail> {
        let now = Moment::new(nanos).ok_or("no moment")?;
        self.now = now;
        self.ledger.entry = nanos.saturating_add(1);
        self.seen = self.seen.saturating_add(9);
        Ok(())
    }

    fn act_further(&mut self, verb: &str, words: &[&str]) -> Result<String, Fail> {
        match verb {
            "word" => self.set_word(number(words, 2)?),
            "config" => self.set_config(words),
            "bucket" => self.set_bucket(words),
            "lose" | "gain" => self.turn_tokens(verb),
            _ => self.act_on_call(verb, words),
        }
    }

    fn set_word(&mut self, word: u64) -> Result<String, Fail> {
        self.word = word;
        self.done()
    }

    fn set_config(&mut self, words: &[&str]) -> Result<String, Fail> {
        change(&mut self.chosen, words)?;
        self.done()
    }

    fn set_bucket(&mut self, words: &[&str]) -> Result<String, Fail> {
        let throttle = throttle_of(words)?;
        self.chosen.throttle = throttle;
        self.tokens = match throttle {
            Some(throttle) => Some(Tokens::new(throttle)),
            None => None,
        };
        self.done()
    }

    fn done(&self) -> Result<String, Fail> {
        Ok(format!(in self.alloc; "done")?)
    }

    /// A call, with the timeout that its application names.
    fn begin(&mut self, words: &[&str]) -> Result<String, Fail> {
        let timeout = match words.get(2) {
            Some(word) => Some(word.parse::<u64>()?),
            None => None,
        };
        let call = add_call(self.alloc, &mut self.ledger.calls, self.ledger.entry)?;
        let path = Text::of_slice(self.alloc, b"/s/m")?;
        let request = Request::new(path, Metadata::new(self.alloc), None, timeout)?;
        self.calls
            .push(Call::new(self.alloc, call, request, self.now))?;
        Ok(format!(in self.alloc; "call {call}")?)
    }

    /// An attempt of another call failed, or succeeded.
    fn turn_tokens(&mut self, verb: &str) -> Result<String, Fail> {
        if let Some(tokens) = &mut self.tokens {
            if verb == "lose" {
                tokens.failure();
            } else {
                tokens.success();
            }
        }
        self.done()
    }

    /// The next bytes of a row's messages, where it has so many.
    fn feed(&mut self, words: &[&str]) -> Result<String, Fail> {
        let row = number(words, 2)?;
        let len = u32::try_from(number(words, 3)?)?;
        let call = index_of(self.call_of(row))?;
        let call = self.calls.get_mut(call).ok_or("no such call")?;
        let mut out = BytesMut::new(self.alloc);
        call.feed(row, len, &mut out)?;
        let (left, is_last) = call.ready(row);
        let len = out.len();
        let more = if is_last { "" } else { ", more" };
        Ok(format!(in self.alloc; "fed {len}, {left} left{more}")?)
    }

    /// The call of a row; the first one where there is no such row.
    fn call_of(&self, row: u64) -> u64 {
        for (place, one) in self.ledger.rows.as_slice().iter().enumerate() {
            if place as u64 + 1 == row {
                return u64::from(one.call);
            }
        }
        1
    }

    fn act_on_call(&mut self, verb: &str, words: &[&str]) -> Result<String, Fail> {
        let (reply, acts) = match verb {
            "send" => self.send(words)?,
            "finish" => {
                let call = index_of(number(words, 2)?)?;
                let call = self.calls.get_mut(call).ok_or("no such call")?;
                (call.finish(), Items::new(self.alloc))
            }
            "take" => self.take(number(words, 2)?)?,
            "cancel" => self.cancel(number(words, 2)?)?,
            _ => (Reply::Done, self.act_by_channel(verb, words)?),
        };
        let mut reported = report_reply(self.alloc, &reply)?;
        report_acts(self.alloc, &mut reported, acts.as_slice())?;
        Ok(reported)
    }

    fn send(&mut self, words: &[&str]) -> Result<Report, Fail> {
        let len = number(words, 3)?;
        let message = of_len(self.alloc, len)?;
        let call = index_of(number(words, 2)?)?;
        let call = self.calls.get_mut(call).ok_or("no such call")?;
        let can_send = call.can_send(u32::try_from(len)?);
        let reported = call.send(&mut self.ledger, message, self.now, &self.tokens)?;
        if can_send == matches!(reported.0, Reply::Full { held: _ }) {
            return Err("a send that was foretold wrongly".into());
        }
        Ok(reported)
    }

    fn take(&mut self, number: u64) -> Result<Report, Fail> {
        let call = self.calls.get_mut(index_of(number)?).ok_or("no such call")?;
        let can_take = call.can_take(&self.ledger);
        let reply = call.take(&self.ledger)?;
        if can_take == matches!(reply, Reply::NotYet) {
            return Err("a take that was foretold wrongly".into());
        }
        Ok((reply, Items::new(self.alloc)))
    }

    fn cancel(&mut self, number: u64) -> Result<Report, Fail> {
        let call = self.calls.get_mut(index_of(number)?).ok_or("no such call")?;
        Ok(call.cancel(&mut self.ledger, self.now, &self.tokens)?)
    }

    fn act_by_channel(&mut self, verb: &str, words: &[&str]) -> Result<Items<CallAct>, Fail> {
        match verb {
            "configure" | "due" | "deadline" | "noconfig" | "shut" => {
                self.act_of_channel(verb, number(words, 2)?)
            }
            _ => self.act_on_row(verb, words),
        }
    }

    fn act_of_channel(&mut self, verb: &str, number: u64) -> Result<Items<CallAct>, Fail> {
        let call = self.calls.get_mut(index_of(number)?).ok_or("no such call")?;
        let ledger = &mut self.ledger;
        let acts = match verb {
            "configure" => call.configure(ledger, self.chosen, self.now)?,
            "due" => call.due(ledger, self.now, &self.tokens)?,
            "deadline" => call.deadline(ledger, self.now, &self.tokens)?,
            "noconfig" => call.close(ledger, EndCause::NoConfig, self.now, &self.tokens)?,
            _ => call.close(ledger, EndCause::Shut, self.now, &self.tokens)?,
        };
        Ok(acts)
    }

    fn act_on_row(&mut self, verb: &str, words: &[&str]) -> Result<Items<CallAct>, Fail> {
        let row = number(words, 2)?;
        let call = index_of(self.call_of(row))?;
        match verb {
            "place" => self.place(call, row),
            "fail" => self.fail(call, row),
            _ => self.receive(call, row, verb, words),
        }
    }

    fn place(&mut self, call: usize, row: u64) -> Result<Items<CallAct>, Fail> {
        let placed = Placed {
            entry: self.ledger.entry,
            moment: self.now,
            generation: 1,
            sub: 1,
            link: 1,
        };
        let call = self.calls.get_mut(call).ok_or("no such call")?;
        Ok(call.placed(&mut self.ledger, row, placed)?)
    }

    fn fail(&mut self, call: usize, row: u64) -> Result<Items<CallAct>, Fail> {
        let call = self.calls.get_mut(call).ok_or("no such call")?;
        Ok(call.picked_fail(&mut self.ledger, row, self.now, self.word, &mut self.tokens)?)
    }

    fn receive(
        &mut self,
        call: usize,
        row: u64,
        verb: &str,
        words: &[&str],
    ) -> Result<Items<CallAct>, Fail> {
        let news = news_of(self.alloc, verb, row, self.seen, words)?;
        let call = self.calls.get_mut(call).ok_or("no such call")?;
        Ok(call.news(
            &mut self.ledger,
            row,
            news,
            self.now,
            self.word,
            &mut self.tokens,
        )?)
    }
}
