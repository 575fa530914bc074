//! What is measured.

/// What each thread does.
#[derive(Clone, Copy, Debug, PartialEq, Eq)]
pub enum Work {
    /// Makes different pairs.
    New,
    /// Finds pairs of the first 2,000 again, in the table.
    Again,
    /// Finds pairs of the first 2,000 again, through a front of its own.
    Find,
}

/// How many calls each thread makes, and how many threads there are.
#[derive(Clone, Copy)]
pub struct Plan {
    pub work: Work,
    pub calls: u32,
    pub team: Team,
}

/// How many threads there are.
#[derive(Clone, Copy, Debug, PartialEq, Eq)]
pub enum Team {
    One,
    Two,
    Four,
}

fn work_of(word: &str) -> Option<Work> {
    match word {
        "new" => Some(Work::New),
        "again" => Some(Work::Again),
        "find" => Some(Work::Find),
        _ => None,
    }
}

fn team_of(word: &str) -> Option<Team> {
    match word {
        "1" => Some(Team::One),
        "2" => Some(Team::Two),
        "4" => Some(Team::Four),
        _ => None,
    }
}

fn number(word: &str) -> Option<u32> {
    match word.parse::<u32>() {
        Ok(number) => Some(number),
        Err(_) => None,
    }
}

/// The words after the program's name are what each thread does, how many calls it makes, and how
/// many threads there are.
pub fn plan_of(words: &[String]) -> Option<Plan> {
    match words {
        [_, first, second, third] => Some(Plan {
            work: work_of(first.as_str())?,
            calls: number(second.as_str())?,
            team: team_of(third.as_str())?,
        }),
        _ => None,
    }
}
