// What comes on links.
ghost use Rattle.std.specs.Prelude.{◌≡◌, ◌<◌, ◌≤◌, [], drop, length, IfOk, IfSome, OnOk};
ghost use Rattle.std.specs.Option.{option_map};
ghost use Rattle.channel_core.specs.Arrivals as arrivals;
ghost use Rattle.channel_core.specs.Steps as steps;
ghost use Rattle.channel_core.specs.Tables.{received_in};

use crate::state::State;
use attempt_ledger::{EndNews, News, RowCause};
use call_core::own_end;
use grpc_base::{Code, Items, NoMemory, Reply};
use lb_policy::Balancer;
use ledger_stamps::link_read;
use std::collections::BTreeMap;

impl<P: Balancer> State<P> {
    /// Applies a piece frame by frame: what one frame causes is done before the next is read.
    pub fn arrived(&mut self, link: u32, piece: &[u8]) -> Result<Reply, NoMemory>
        ensures state { OnOk result (self.new ≡ (arrivals.arrived link piece.now self.old).state) }
        ensures reply { IfOk result (λ r. r ≡ (arrivals.arrived link piece.now self.old).reply) }
    {
        let mut rest = piece;
        while !rest.is_empty() {
            let Some(taken) = self.frame_arrived(link, rest)? else {
                return Ok(Reply::Done);
            };
            rest = bytes_after(rest, taken);
        }
        Ok(Reply::Done)
    }

    /// Applies the bytes up to the end of one frame, and reports how many these are; None where the link is dead.
    fn frame_arrived(&mut self, link: u32, piece: &[u8]) -> Result<Option<usize>, NoMemory>
        requires { 0 < length piece.now }
        ensures state { OnOk result (self.new ≡ arrivals.frame_received_if link (received_in link piece.now self.old.links) self.old) }
        ensures taken { IfOk result (λ n. n ≡ option_map (λ h. h.taken) (received_in link piece.now self.old.links)) }
        ensures within { IfOk result (λ n. IfSome n (λ taken. (1 ≤ taken) × (taken ≤ length piece.now))) }
    {
        match self.links.arrived(link, piece)? {
            Some(arrival) => {
                self.receive_frame(link, arrival.read, arrival.news)?;
                Ok(Some(arrival.taken))
            }
            None => Ok(None),
        }
    }

    /// The news of one frame. The ledger gets how far the link is read before they are handled; ends are applied by the rows' places.
    fn receive_frame(&mut self, link: u32, read: u64, news: Items<News>) -> Result<(), NoMemory>
        ensures { OnOk result (self.new ≡ arrivals.handled link news (arrivals.read_to link read self.old)) }
    {
        link_read(&mut self.book.ledger.links, link, read);
        let ends = self.receive_all(link, news)?;
        self.end_all_on(link, ends)?;
        self.links.seal(link);
        self.seal();
        Ok(())
    }

    /// All news but the ends, which it gives by the rows' places.
    fn receive_all(
        &mut self,
        link: u32,
        news: Items<News>,
    ) -> Result<BTreeMap<u64, EndNews>, NoMemory>
        ensures state { OnOk result (self.new ≡ arrivals.received_all link news self.old) }
        ensures ends { IfOk result (λ ends. ends.entries ≡ steps.ends_kept news []) }
    {
        let mut ends = BTreeMap::new(self.alloc);
        let mut rest = news.into_vec().into_iter();
        while let Some(one) = rest.next() {
            self.receive_one(link, one, &mut ends)?;
        }
        Ok(ends)
    }

    fn end_all_on(&mut self, link: u32, ends: BTreeMap<u64, EndNews>) -> Result<(), NoMemory>
        ensures { OnOk result (self.new ≡ arrivals.all_ended_on link ends.entries self.old) }
    {
        let mut ends = ends;
        while let Some((row, end)) = ends.pop_first() {
            self.end_on(link, row, end)?;
        }
        Ok(())
    }

    fn receive_one(
        &mut self,
        link: u32,
        news: News,
        ends: &mut BTreeMap<u64, EndNews>,
    ) -> Result<(), NoMemory>
        ensures state { OnOk result (self.new ≡ arrivals.received_one link news self.old) }
        ensures ends { OnOk result (ends.new.entries ≡ steps.end_kept news ends.old.entries) }
    {
        match news {
            News::Ready => {
                let sub = self.sub_of(link);
                self.net.ready(sub, link);
                Ok(())
            }
            News::Retiring => {
                let sub = self.sub_of(link);
                self.links.retire(link);
                self.net.down(sub, link);
                self.stamp_gone(link);
                Ok(())
            }
            News::Broken { .. } => self.lose(link, false),
            News::Ended { tag, end } => {
                let _before = ends.insert(tag, end)?;
                Ok(())
            }
            News::Head { tag, .. } | News::Message { tag, .. } | News::TooLarge { tag, .. } => {
                let call = self.book.call_of_row(tag);
                self.give_news(call, tag, news)
            }
        }
    }

    /// reports to a call what came for one of its attempts.
    pub fn give_news(&mut self, call: u32, row: u64, news: News) -> Result<(), NoMemory>
        ensures { OnOk result (self.new ≡ steps.reported_to call row news self.old) }
    {
        let word = self.next_word();
        let acts = self.book.news(call, row, news, word)?;
        let drew = self.book.has_drawn(row);
        self.count_draw(drew);
        self.follow(call, acts)
    }

    /// An attempt on a link ended, unless it was cut meanwhile.
    fn end_on(&mut self, link: u32, row: u64, end: EndNews) -> Result<(), NoMemory>
        ensures { OnOk result (self.new ≡ arrivals.ended_on link row end self.old) }
    {
        if self.book.has_ended(row) {
            return Ok(());
        }
        let _was = self.outstanding.leave(link, row);
        let call = self.book.call_of_row(row);
        self.give_news(call, row, News::Ended { tag: row, end })?;
        self.stamp_gone(link);
        Ok(())
    }

    /// A link is lost or broken, and with it each attempt on it. `each` says whether what one attempt's loss causes is complete
    /// before the next one's.
    pub fn lose(&mut self, link: u32, each: bool) -> Result<(), NoMemory>
        ensures { OnOk result (self.new ≡ arrivals.lost link each self.old) }
    {
        let sub = self.sub_of(link);
        self.links.mark_dead(link);
        self.net.down(sub, link);
        self.resolver.want();
        self.lose_rows(link, each)?;
        self.stamp_gone(link);
        Ok(())
    }

    fn lose_rows(&mut self, link: u32, each: bool) -> Result<(), NoMemory>
        ensures { OnOk result (self.new ≡ arrivals.rows_lost arrivals.most_rows link each 0 self.old) }
    {
        let mut last = 0;
        // There are fewer rows than this.
        for _row in 0..u64::MAX {
            let Some(row) = self.next_on(link, last) else {
                return Ok(());
            };
            last = row;
            self.lose_row(link, row, each)?;
        }
        Ok(())
    }

    /// The first outstanding row of a link after another.
    fn next_on(&self, link: u32, row: u64) -> Option<u64>
        ensures { result ≡ steps.next_on link row self.now }
    {
        match self.outstanding.first_after(link, row) {
            Some((on, next)) if on == link => Some(next),
            Some(_) | None => None,
        }
    }

    fn lose_row(&mut self, link: u32, row: u64, each: bool) -> Result<(), NoMemory>
        ensures { OnOk result (self.new ≡ arrivals.lost_row link each row self.old) }
    {
        let end = self.loss_of(link, row);
        self.end_on(link, row, end)?;
        if each {
            self.seal();
        }
        Ok(())
    }

    /// The end of an attempt whose link is lost: after its request's head was sent, or before.
    fn loss_of(&self, link: u32, row: u64) -> EndNews
        ensures { result ≡ steps.loss_of link row self.now }
    {
        let seen = self.book.link(link).map_or(0, |link| link.read);
        if self.book.has_stream(row) {
            own_end(self.alloc, Code::Unavailable, RowCause::Lost, seen)
        } else {
            own_end(self.alloc, Code::Unavailable, RowCause::Unsent, seen)
        }
    }
}

/// The bytes after the first ones.
fn bytes_after(piece: &[u8], taken: usize) -> &[u8]
    requires { taken ≤ length piece.now }
    ensures { result.now ≡ drop taken piece.now }
{
    &piece[taken..]
}
