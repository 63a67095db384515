/// What the program is asked to do with the source's problem.
#[derive(Clone, Copy, Debug, PartialEq, Eq)]
pub enum Command {
    /// To write its dump.
    Plain,
    /// To tell whether it has a fault.
    Check,
    /// To write the listing of its task graphs.
    Graph,
}

impl Command {
    ghost use Rattle.uts.specs.Commands.{IsNamed, AsksFor};

    fn named(name: &str) -> Option<Command>
        ensures { IsNamed name.now result }
    {
        match name {
            "plain" => Some(Command::Plain),
            "check" => Some(Command::Check),
            "graph" => Some(Command::Graph),
            _ => None,
        }
    }

    /// The command that the words are.
    pub fn of_words(words: &[String]) -> Option<Command>
        ensures { AsksFor words.now result }
    {
        match words {
            [word] => Command::named(word.as_str()),
            _ => None,
        }
    }
}
