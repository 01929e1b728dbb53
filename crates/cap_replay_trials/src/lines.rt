// What a line of a schedule is read as.
use cap_base::DataSet;
use cap_disk::Fill;
use cap_schedule::{Action, End, HostOrder, Line, Order, Prefix, ScheduleFault, read};
use std::alloc::{AllocError, Global};

const SET_UP: &str =
    "# two terminals\nhost ACQ1 limit 500.00 block 411111 poll 60\nterminal T1 max 1000 floor 20.00\nterminal T2 max 7 floor 0\n";

// What a terminal is asked about a sale, with its number or amount.
fn of_sale(order: &Order) -> Option<(&'static str, u64)> {
    match order {
        Order::Begin { amount, .. } => Some(("begin", amount.hundredths())),
        Order::Offline(n) => Some(("offline", *n)),
        Order::Sale { amount, .. } => Some(("sale", amount.hundredths())),
        Order::Void(n) => Some(("void", *n)),
        Order::Cancel(n) => Some(("cancel", *n)),
        _ => None,
    }
}

// What it is asked to send, with its number.
fn of_sending(order: &Order) -> Option<(&'static str, u64)> {
    match order {
        Order::Push => Some(("push", 0)),
        Order::Batch(n) => Some(("batch", *n)),
        Order::Ask(n) => Some(("ask", *n)),
        Order::AskCancel(n) => Some(("askcancel", *n)),
        Order::Diagnose => Some(("diagnose", 0)),
        Order::Status(set) => Some((set_of(*set), 0)),
        _ => None,
    }
}

fn set_of(set: DataSet) -> &'static str {
    match set {
        DataSet::Aqpr => "status AQPR",
        DataSet::Mgtp => "status MGTP",
        DataSet::Strp => "status STRP",
    }
}

// What else it is asked.
fn of_taking(order: &Order) -> (&'static str, u64) {
    match order {
        Order::Down(n) => ("down", *n),
        Order::Walkout(n) => ("walkout", *n),
        Order::Close => ("close", 0),
        _ => ("hear", 0),
    }
}

fn order_of(order: &Order) -> (&'static str, u64) {
    match of_sale(order) {
        Some(told) => told,
        None => match of_sending(order) {
            Some(told) => told,
            None => of_taking(order),
        },
    }
}

fn hex_of(alloc: Global, bytes: &[u8]) -> Result<String, AllocError> {
    let mut text = String::new(alloc);
    for byte in bytes {
        let digits = format!(in alloc; "{byte:02x}")?;
        text.push_str(digits.as_str())?;
    }
    Ok(text)
}

fn at_terminal(alloc: Global, place: u64, order: &Order) -> Result<String, AllocError> {
    match order {
        Order::Hear(bytes) => {
            let hex = hex_of(alloc, bytes.as_slice())?;
            format!(in alloc; "terminal {place} hear {hex}")
        }
        _ => {
            let (word, number) = order_of(order);
            format!(in alloc; "terminal {place} {word} {number}")
        }
    }
}

fn at_host(alloc: Global, order: &HostOrder) -> Result<String, AllocError> {
    match order {
        HostOrder::Up { terminal, which } => format!(in alloc; "host up {terminal} {which}"),
        HostOrder::Publish(rows) => {
            let count = rows.as_slice().len();
            format!(in alloc; "host publish {count} rows")
        }
        HostOrder::Listen(bytes) => {
            let hex = hex_of(alloc, bytes.as_slice())?;
            format!(in alloc; "host listen {hex}")
        }
    }
}

/// The end and what it is asked, with its number. Terminals count from 0.
pub fn action_of(alloc: Global, action: &Action) -> Result<String, AllocError> {
    match action {
        Action::AtTerminal { place, order } => at_terminal(alloc, *place, order),
        Action::AtHost(order) => at_host(alloc, order),
        Action::Reopen(End::Host) => String::from_str(alloc, "reopen host"),
        Action::Reopen(End::Terminal(place)) => format!(in alloc; "reopen terminal {place}"),
    }
}

fn fill_of(fill: Fill) -> (&'static str, u8) {
    match fill {
        Fill::Old => ("old", 0),
        Fill::New => ("new", 0),
        Fill::Byte(byte) => ("byte", byte),
    }
}

fn at_call(alloc: Global, word: &str, call: u64, fill: Fill) -> Result<String, AllocError> {
    let (name, byte) = fill_of(fill);
    format!(in alloc; "{word} {call} {name} {byte}, ")
}

// What stands before the action.
fn prefix_of(alloc: Global, prefix: Option<Prefix>) -> Result<String, AllocError> {
    match prefix {
        None => Ok(String::new(alloc)),
        Some(Prefix::Cut { call, fill }) => at_call(alloc, "cut", call, fill),
        Some(Prefix::Fail { call, fill }) => at_call(alloc, "fail", call, fill),
        Some(Prefix::CutAfter) => String::from_str(alloc, "cut after, "),
    }
}

/// The number of a line, its prefix and its action.
pub fn line_of(alloc: Global, line: &Line) -> Result<String, AllocError> {
    let number = line.number;
    let prefix = prefix_of(alloc, line.prefix)?;
    let action = action_of(alloc, &line.action)?;
    format!(in alloc; "{number} {prefix}{action}")
}

/// What a line after the set-up of a host and two terminals is read as.
pub fn read_as(alloc: Global, line: &str) -> Result<String, AllocError> {
    let text = format!(in alloc; "{SET_UP}{line}")?;
    match read(alloc, text.as_bytes()) {
        Ok(schedule) => match schedule.lines.get(0) {
            Some(line) => line_of(alloc, line),
            None => String::from_str(alloc, "no line"),
        },
        Err(ScheduleFault::Line(number)) => format!(in alloc; "faulty {number}"),
        Err(ScheduleFault::Memory) => Err(AllocError),
    }
}
