// How a program is called.
ghost use Rattle.std.specs.Prelude.{◌↔◌, IsTrue, IsOk};
ghost use Rattle.console.specs.Words.{AsksHelp};

use crate::arguments::Arguments;
use crate::errors::Stop;
use crate::output;
use crate::words::is_word;

// How a program is called, and what it does.
#[derive(Clone, Copy)]
pub struct Manual {
    pub usage: &'static str,
    pub help: &'static str,
}

impl Manual {
    // Stops the program where it was not called in the right way, or asked with its first argument how it is called.
    pub fn judge(self, arguments: &Arguments, is_right: bool) -> Result<(), Stop>
        ensures right { IsOk result → IsTrue is_right }
        ensures taken { IsOk result ↔ (IsTrue is_right × (AsksHelp arguments.now.all.items → ⊥)) }
    {
        if arguments.is(1, b"--help") || arguments.is(1, b"-h") {
            return Err(Stop::Asked(self));
        }
        let usage = self.usage;
        if is_right {
            Ok(())
        } else {
            Err(Stop::Call(usage))
        }
    }

    // The same before any argument is read: they are looked at where they are, and no memory is asked for.
    pub fn judge_call(self, rt: &HostRuntime, is_right: bool) -> Result<(), Stop>
        ensures { IsOk result → IsTrue is_right }
    {
        if is_word(rt, 1, b"--help") || is_word(rt, 1, b"-h") {
            return Err(Stop::Asked(self));
        }
        if is_right {
            Ok(())
        } else {
            Err(Stop::Call(self.usage))
        }
    }

    // The usage and the help on standard output. What holds of every program comes last.
    pub fn print(self, rt: &HostRuntime) {
        let usage = self.usage;
        let help = self.help;
        output::told(
            rt,
            print!(rt;
                "{usage}\n{help}\nA file named - is standard input, and only one can be. What cannot be read is told on standard error; \
                the exit status is always 0.\n"
            ),
        );
    }
}

#[cfg(test)]
mod tests {
    use super::*;
    use crate::arguments::tests::arguments;
    use std::alloc::AllocError;

    const MANUAL: Manual = Manual {
        usage: "usage",
        help: "help",
    };

    #[test]
    fn calls_are_judged(rt: HostRuntime) -> Result<(), AllocError> {
        let plain = arguments(&rt, &[b"--help", b"a", b"-h"])?;
        assert!(rt; MANUAL.judge(&plain, true).is_ok());
        assert!(rt; matches!(MANUAL.judge(&plain, false), Err(Stop::Call("usage"))));
        for word in [b"--help".as_slice(), b"-h".as_slice()] {
            let asked = arguments(&rt, &[b"program", word])?;
            assert!(rt; matches!(MANUAL.judge(&asked, true), Err(Stop::Asked(_))));
            assert!(rt; matches!(MANUAL.judge(&asked, false), Err(Stop::Asked(_))));
        }
        Ok(())
    }
}
