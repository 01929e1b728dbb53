/// A row's words: what is done, and with what. A word that is not there is empty.
#[derive(Clone, Copy)]
pub(crate) struct Row<'a> {
    pub(crate) verb: &'a str,
    pub(crate) words: [&'a str; 6],
}

/// Takes a row apart.
pub(crate) fn row_of(line: &str) -> Row<'_> {
    let mut parts = line.split_whitespace();
    let verb = parts.next().unwrap_or("");
    let mut words = [""; 6];
    for place in 0..6 {
        words[place] = parts.next().unwrap_or("");
    }
    Row { verb, words }
}

/// The number that a word tells, 0 where it tells none.
pub(crate) fn number(word: &str) -> u64 {
    word.parse::<u64>().unwrap_or(0)
}
