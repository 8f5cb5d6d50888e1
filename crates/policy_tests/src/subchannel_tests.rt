// The worked dials of a channel, each call in each state, and a board over some resolutions.
use grpc_base::{Address, AddressList, Conn, Moment};
use std::test::Fail;
use subchannel::{Board, Subchannel};

/// A call of a subchannel, or of a board with a number.
#[derive(Clone, Copy, Debug)]
enum Step {
    Wished,
    Dial(u64, u64),
    Up,
    Failed,
    Ready,
    Lost,
    Clock(u64),
    Shut,
}

fn host(ip: u32) -> Address {
    Address { ip, port: 443 }
}

/// Makes a call, and answers what it answers, or 0.
fn called(sub: &mut Subchannel, step: Step) -> u64 {
    match step {
        Step::Wished => sub.wished(),
        Step::Dial(moment, word) => return dialed(sub, moment, word),
        Step::Up => return u64::from(sub.up().is_ok()),
        Step::Failed => sub.failed(),
        Step::Ready => sub.ready(),
        Step::Lost => sub.lost(),
        Step::Clock(moment) => clocked(sub, moment),
        Step::Shut => sub.shut(),
    }
    0
}

fn dialed(sub: &mut Subchannel, moment: u64, word: u64) -> u64 {
    if moment > Moment::LIMIT {
        return 0;
    }
    sub.dial(moment, word).unwrap_or(0)
}

fn clocked(sub: &mut Subchannel, moment: u64) {
    if moment <= Moment::LIMIT {
        sub.clock(moment);
    }
}

#[test]
fn backs_off_as_the_worked_dials(rt: HostRuntime) {
    let rows = [
        (Step::Wished, 0, Conn::Connecting, 0),
        (
            Step::Dial(0, 0),
            20_000_000_000,
            Conn::Connecting,
            20_000_000_000,
        ),
        (Step::Failed, 0, Conn::Failure, 1_000_000_000),
        (Step::Clock(999_999_999), 0, Conn::Failure, 1_000_000_000),
        (Step::Clock(1_000_000_000), 0, Conn::Idle, 0),
        (Step::Wished, 0, Conn::Connecting, 0),
        (
            Step::Dial(1_000_000_000, 0),
            21_000_000_000,
            Conn::Connecting,
            21_000_000_000,
        ),
        (Step::Failed, 0, Conn::Failure, 2_280_000_000),
        (Step::Clock(2_280_000_000), 0, Conn::Idle, 0),
        (Step::Wished, 0, Conn::Connecting, 0),
        (
            Step::Dial(3_000_000_000, 0),
            23_000_000_000,
            Conn::Connecting,
            23_000_000_000,
        ),
        (Step::Up, 1, Conn::Connecting, 23_000_000_000),
        (Step::Ready, 0, Conn::Ready, 0),
        (Step::Lost, 0, Conn::Idle, 0),
        (Step::Wished, 0, Conn::Connecting, 0),
        (
            Step::Dial(30_000_000_000, 0),
            50_000_000_000,
            Conn::Connecting,
            50_000_000_000,
        ),
        (Step::Failed, 0, Conn::Failure, 31_000_000_000),
        (Step::Clock(31_000_000_000), 0, Conn::Idle, 0),
        (Step::Wished, 0, Conn::Connecting, 0),
        (
            Step::Dial(31_000_000_000, 1 << 63),
            51_000_000_000,
            Conn::Connecting,
            51_000_000_000,
        ),
        (Step::Failed, 0, Conn::Failure, 32_600_000_000),
    ];
    let mut sub = Subchannel::new(host(1));
    for (step, answer, state, next) in rows {
        assert_eq!(rt; called(&mut sub, step), answer, "at {step:?}");
        assert_eq!(rt; sub.state(), state, "after {step:?}");
        assert_eq!(rt; sub.next().unwrap_or(0), next, "after {step:?}");
    }
}

/// A subchannel in the state of a column.
fn in_state(column: u32) -> Subchannel {
    let mut sub = Subchannel::new(host(1));
    if column == 6 {
        sub.shut();
        return sub;
    }
    let path = [Step::Wished, Step::Dial(0, 0), Step::Up, Step::Ready];
    for (done, step) in path.iter().enumerate() {
        if done < column.min(4) as usize && !(column == 5 && done > 1) {
            let _answer = called(&mut sub, *step);
        }
    }
    if column == 5 {
        sub.failed();
    }
    sub
}

#[test]
fn answers_each_call_in_each_state(rt: HostRuntime) {
    let steps = [
        Step::Wished,
        Step::Dial(0, 0),
        Step::Up,
        Step::Failed,
        Step::Ready,
        Step::Lost,
        Step::Clock(20_000_000_000),
        Step::Shut,
    ];
    let wanted = [
        *b"1111234",
        *b"0111234",
        *b"0111234",
        *b"0131234",
        *b"0112234",
        *b"0113034",
        *b"0133204",
        *b"4444444",
    ];
    for (step, row) in steps.iter().zip(wanted.iter()) {
        for column in 0..7u32 {
            let mut sub = in_state(column);
            let _answer = called(&mut sub, *step);
            let want = row[column as usize] - b'0';
            assert_eq!(rt; sub.state().number(), want, "{step:?} in {column}");
        }
    }
}

fn list(hosts: &[u32]) -> AddressList {
    let mut list = AddressList::new();
    for ip in hosts {
        let _full = list.push(host(*ip));
    }
    list
}

/// Keeps two lists, and reports whether there was memory.
fn kept(board: &mut Board, current: &[u32], pending: &[u32]) -> bool {
    if board.made() >= 4_000_000_000 {
        return false;
    }
    board.keep(&list(current), &list(pending)).is_ok()
}

fn board_dialed(board: &mut Board, sub: u32, moment: u64, word: u64) -> u64 {
    if sub == 0 || sub > board.made() || moment > Moment::LIMIT {
        return 0;
    }
    board.dial(sub, moment, word).unwrap_or(0)
}

/// Makes a call of a board, and answers what it answers, or 0.
fn board_called(board: &mut Board, sub: u32, step: Step) -> u64 {
    if sub == 0 || sub > board.made() {
        return 0;
    }
    match step {
        Step::Wished => board.wished(sub),
        Step::Dial(moment, word) => return board_dialed(board, sub, moment, word),
        Step::Up => return u64::from(board.up(sub).is_ok()),
        Step::Failed => board.failed(sub),
        Step::Ready => board.ready(sub),
        Step::Lost => board.lost(sub),
        Step::Clock(_) => {}
        Step::Shut => {}
    }
    0
}

#[test]
fn numbers_in_the_order_of_appearance(rt: HostRuntime) {
    let mut board = Board::new(rt.alloc());
    assert!(rt; kept(&mut board, &[3, 1], &[1, 2]));
    assert!(rt; kept(&mut board, &[2], &[]));
    assert!(rt; kept(&mut board, &[3, 2], &[]));
    for (ip, want) in [(1, 0), (2, 3), (3, 4), (4, 0)] {
        assert_eq!(rt; board.find(host(ip)).unwrap_or(0), want, "of {ip}");
    }
    for (sub, want) in [(0, 9), (1, 4), (2, 4), (3, 0), (4, 0), (5, 9)] {
        let state = board.at(sub).map_or(9, |sub| sub.state().number());
        assert_eq!(rt; state, want, "of {sub}");
    }
}

#[test]
fn changes_the_lowest_number_first(rt: HostRuntime) {
    let mut board = Board::new(rt.alloc());
    assert!(rt; kept(&mut board, &[1, 2, 3], &[]));
    let rows = [
        (3, Step::Wished, 0, 3, 0),
        (2, Step::Wished, 0, 2, 0),
        (2, Step::Dial(0, 0), 20_000_000_000, 3, 20_000_000_000),
        (
            3,
            Step::Dial(1_000_000_000, 1 << 63),
            21_000_000_000,
            0,
            20_000_000_000,
        ),
        (3, Step::Dial(0, 0), 0, 0, 20_000_000_000),
        (3, Step::Failed, 0, 0, 2_000_000_000),
        (2, Step::Up, 1, 0, 2_000_000_000),
        (2, Step::Ready, 0, 0, 2_000_000_000),
        (2, Step::Lost, 0, 0, 2_000_000_000),
    ];
    for (sub, step, answer, dialable, next) in rows {
        assert_eq!(rt; board_called(&mut board, sub, step), answer, "at {step:?}");
        assert_eq!(rt; board.dialable().unwrap_or(0), dialable, "after {step:?}");
        assert_eq!(rt; board.next().unwrap_or(0), next, "after {step:?}");
    }
    for (moment, want) in [
        (1_999_999_999, None),
        (2_000_000_000, Some((3, Conn::Idle))),
        (2_000_000_000, None),
    ] {
        assert_eq!(rt; board.clock(moment), want, "at {moment}");
    }
}

/// The 64 hosts from one on.
fn hosts_from(first: u32) -> AddressList {
    let mut list = AddressList::new();
    for place in 0..64 {
        let _full = list.push(host(first.wrapping_add(place)));
    }
    list
}

#[test]
fn makes_128_at_once_in_each_of_twenty_rounds(rt: HostRuntime) -> Result<(), Fail> {
    let mut board = Board::new(rt.alloc());
    for round in 0..20u32 {
        let first = round * 128;
        assert!(rt; board.made() < 4_000_000_000);
        board.keep(&hosts_from(first), &hosts_from(first + 64))?;
        assert_eq!(rt; board.made(), first + 128, "in round {round}");
        for place in 0..128u32 {
            let number = first + place + 1;
            assert_eq!(rt;
                board.find(host(first + place)),
                Some(number),
                "in round {round}"
            );
        }
    }
    for (sub, want) in [
        (1, Conn::Shutdown),
        (2_432, Conn::Shutdown),
        (2_433, Conn::Idle),
    ] {
        let state = board.at(sub).map(|sub| sub.state());
        assert_eq!(rt; state, Some(want), "of {sub}");
    }
    Ok(())
}

#[test]
fn shows_its_address_and_whether_it_may_be_dialled(rt: HostRuntime) {
    let mut sub = Subchannel::new(host(7));
    assert_eq!(rt; sub.address(), host(7));
    assert!(rt; !sub.is_dialable());
    sub.wished();
    assert!(rt; sub.is_dialable());
}
