//! What a shell reads to complete the words of the program, made from the tables of its commands.

use crate::commands::{Known, known_commands};
use clap::builder::ValueParser;
use scp_sim_options::{Entry, Place, Word};
use std::alloc::{AllocError, Global};

/// The shells whose words are completed.
#[derive(Clone, Copy)]
pub enum Shell {
    Bash,
    Zsh,
    Fish,
}

static BASH_FRONT: &str = "# What bash completes of bowls: source <(bowls completions bash)
_bowls() {
    local word=${COMP_WORDS[COMP_CWORD]} before=${COMP_WORDS[COMP_CWORD-1]} command= names= flags= values=
    [ \"$COMP_CWORD\" -lt 2 ] || command=${COMP_WORDS[1]}
    [ \"$command\" != node ] || [ \"$COMP_CWORD\" -lt 3 ] || command=\"node ${COMP_WORDS[2]}\"
";

static BASH_BACK: &str = "    case $word in
    -*) values=$flags ;;
    *) [ -n \"$values\" ] || values=$names ;;
    esac
    COMPREPLY=($(compgen -W \"$values\" -- \"$word\"))
}
complete -o default -F _bowls bowls
";

static ZSH_FRONT: &str = "#compdef bowls
# What zsh completes of bowls: bowls completions zsh > _bowls, in a folder of fpath
_bowls() {
    local word=$words[CURRENT] before=$words[CURRENT-1] command= names= flags= values=
    (( CURRENT < 3 )) || command=$words[2]
    [[ $command != node ]] || (( CURRENT < 4 )) || command=\"node $words[3]\"
";

static ZSH_BACK: &str = "    case $word in
    -*) values=$flags ;;
    *) [[ -n $values ]] || values=$names ;;
    esac
    if [[ -n $values ]]; then compadd -- ${=values}; else _files; fi
}
if [[ $funcstack[1] == _bowls ]]; then _bowls; else compdef _bowls bowls; fi
";

static FISH_FRONT: &str = "# What fish completes of bowls: bowls completions fish | source
";

/// Adds texts.
fn add(out: &mut String, parts: &[&str]) -> Result<(), AllocError> {
    for part in parts {
        out.push_str(*part)?;
    }
    Ok(())
}

/// The names that a word may have, if it is one of some names.
fn names_of(word: &Word) -> &'static [&'static str] {
    match word.parser {
        ValueParser::Names(names) => names,
        _ => &[],
    }
}

/// Whether a word is an option.
fn is_option(word: &Word) -> bool {
    matches!(word.place, Place::Anywhere)
}

/// Adds names, each with a space before it.
fn add_names(out: &mut String, names: &[&str]) -> Result<(), AllocError> {
    for name in names {
        add(out, &[" ", *name])?;
    }
    Ok(())
}

/// Adds the names of the commands of this one, or of the program if it is of no name.
fn add_commands(out: &mut String, commands: &[Known], parent: &str) -> Result<(), AllocError> {
    for command in commands {
        if command.parent == parent {
            add(out, &[" ", command.entry.name])?;
        }
    }
    Ok(())
}

/// Adds the options of a command.
fn add_options(out: &mut String, words: &[Word]) -> Result<(), AllocError> {
    for word in words {
        if is_option(word) {
            add(out, &[" --", word.name])?;
        }
    }
    Ok(())
}

/// Adds the names that the words of a command may have which aren't options.
fn add_values(out: &mut String, words: &[Word]) -> Result<(), AllocError> {
    for word in words {
        if !is_option(word) {
            add_names(out, names_of(word))?;
        }
    }
    Ok(())
}

/// Adds the name of a command, with that of the one before it.
fn add_path(out: &mut String, command: &Known) -> Result<(), AllocError> {
    if !command.parent.is_empty() {
        add(out, &[command.parent, " "])?;
    }
    out.push_str(command.entry.name)
}

/// Adds the branch of a command: its options, and the names that its other words may have.
fn add_branch(out: &mut String, command: &Known) -> Result<(), AllocError> {
    out.push_str("    '")?;
    add_path(out, command)?;
    out.push_str("') names='")?;
    add_values(out, command.entry.words)?;
    out.push_str("' flags='")?;
    add_options(out, command.entry.words)?;
    out.push_str(" --help' ;;\n")
}

fn add_branches(out: &mut String, commands: &[Known]) -> Result<(), AllocError> {
    for command in commands {
        add_branch(out, command)?;
    }
    Ok(())
}

/// Adds the branch of an option's names, if it is one of some names.
fn add_choice(out: &mut String, command: &Known, word: &Word) -> Result<(), AllocError> {
    let names = names_of(word);
    if names.is_empty() || !is_option(word) {
        return Ok(());
    }
    out.push_str("    '")?;
    add_path(out, command)?;
    add(out, &[" --", word.name, "') values='"])?;
    add_names(out, names)?;
    out.push_str("' ;;\n")
}

fn add_choices(out: &mut String, command: &Known) -> Result<(), AllocError> {
    for word in command.entry.words {
        add_choice(out, command, word)?;
    }
    Ok(())
}

fn add_all_choices(out: &mut String, commands: &[Known]) -> Result<(), AllocError> {
    for command in commands {
        add_choices(out, command)?;
    }
    Ok(())
}

/// Adds the branches of bash and zsh, which are the same.
fn add_cases(out: &mut String, commands: &[Known]) -> Result<(), AllocError> {
    out.push_str("    case $command in\n    '') names='")?;
    add_commands(out, commands, "")?;
    out.push_str(" node help' flags='--help --version' ;;\n    node) names='")?;
    add_commands(out, commands, "node")?;
    out.push_str(" help' flags='--help' ;;\n")?;
    add_branches(out, commands)?;
    out.push_str("    esac\n    case \"$command $before\" in\n")?;
    add_all_choices(out, commands)?;
    out.push_str("    esac\n")
}

/// Adds a text in quotes of fish.
fn add_quoted(out: &mut String, text: &str) -> Result<(), AllocError> {
    let escaped = text.replace(*out.allocator(), "'", "\\'")?;
    add(out, &["'", escaped.as_str(), "'"])
}

/// Adds what comes before each line of fish on a word of a command.
fn add_condition(out: &mut String, command: &Known) -> Result<(), AllocError> {
    let node = if command.parent.is_empty() {
        "not __fish_seen_subcommand_from node"
    } else {
        "__fish_seen_subcommand_from node"
    };
    let name = command.entry.name;
    add(
        out,
        &[
            "complete -c bowls -n '",
            node,
            "; and __fish_seen_subcommand_from ",
            name,
            "'",
        ],
    )
}

/// Adds the line of fish on a command's name.
fn add_name(out: &mut String, command: &Known) -> Result<(), AllocError> {
    let place = if command.parent.is_empty() {
        "__fish_use_subcommand"
    } else {
        "__fish_seen_subcommand_from node"
    };
    let name = command.entry.name;
    add(
        out,
        &["complete -c bowls -f -n '", place, "' -a ", name, " -d "],
    )?;
    add_quoted(out, command.entry.about)?;
    out.push_str("\n")
}

/// Adds the names that a word may have, for fish.
fn add_choice_of_fish(out: &mut String, names: &[&str]) -> Result<(), AllocError> {
    if names.is_empty() {
        return Ok(());
    }
    out.push_str(" -x -a '")?;
    add_names(out, names)?;
    out.push_str("'")
}

/// Adds the line of fish on a word of a command, unless it is any file or text.
fn add_word(out: &mut String, command: &Known, word: &Word) -> Result<(), AllocError> {
    if !is_option(word) && names_of(word).is_empty() {
        return Ok(());
    }
    add_condition(out, command)?;
    if is_option(word) {
        add(out, &[" -l ", word.name])?;
    }
    if is_option(word) && word.action.takes_values() {
        out.push_str(" -r")?;
    }
    add_choice_of_fish(out, names_of(word))?;
    out.push_str(" -d ")?;
    add_quoted(out, word.help)?;
    out.push_str("\n")
}

fn add_words(out: &mut String, command: &Known) -> Result<(), AllocError> {
    for word in command.entry.words {
        add_word(out, command, word)?;
    }
    Ok(())
}

/// Adds the lines of fish.
fn add_lines(out: &mut String, commands: &[Known]) -> Result<(), AllocError> {
    for command in commands {
        add_name(out, command)?;
        add_words(out, command)?;
    }
    out.push_str("complete -c bowls -f -n __fish_use_subcommand -a 'node help'\n")
}

/// What this shell reads to complete the words of the program.
pub fn completions(alloc: Global, shell: Shell) -> Result<String, AllocError> {
    let commands = known_commands(alloc)?;
    let commands = commands.as_slice();
    let mut out = String::new(alloc);
    match shell {
        Shell::Bash => {
            out.push_str(BASH_FRONT)?;
            add_cases(&mut out, commands)?;
            out.push_str(BASH_BACK)?;
        }
        Shell::Zsh => {
            out.push_str(ZSH_FRONT)?;
            add_cases(&mut out, commands)?;
            out.push_str(ZSH_BACK)?;
        }
        Shell::Fish => {
            out.push_str(FISH_FRONT)?;
            add_lines(&mut out, commands)?;
        }
    }
    Ok(out)
}
