/// The words behind a row's first one. A word that is not there is empty.
pub(crate) type Words<'a> = [&'a str; 7];

/// A row: what is done, with what, and all that stands behind the first space.
#[derive(Clone, Copy)]
pub(crate) struct Row<'a> {
    pub(crate) verb: &'a str,
    pub(crate) words: Words<'a>,
    pub(crate) rest: &'a str,
}

/// Takes a row apart.
pub(crate) fn row_of(line: &str) -> Row<'_> {
    let rest = match line.split_once(' ') {
        Some((_, rest)) => rest,
        None => "",
    };
    let mut parts = line.split_whitespace();
    let verb = parts.next().unwrap_or("");
    let mut words = [""; 7];
    for place in 0..7 {
        words[place] = parts.next().unwrap_or("");
    }
    Row { verb, words, rest }
}

/// The number that a word tells, 0 where it tells none.
pub(crate) fn number(word: &str) -> u64 {
    word.parse::<u64>().unwrap_or(0)
}
