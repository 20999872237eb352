// The jobs of the program, with an example each, and the variable that asks for explanations.
use std::fmt::{self, Display};

/// A job of the program.
#[derive(Clone, Copy, Drop)]
struct JobForm {
    /// The words that name it, behind `flashts`.
    form: &'static str,
    /// What it does.
    does: &'static str,
    /// A line of a shell that calls it.
    example: &'static str,
}

/// The jobs, in the order in which they are told: one more is an entry more here, and one of the usage's forms.
const JOBS: [JobForm; 10] = [
    JobForm {
        form: "run [sync] IMAGE",
        does: "runs the script on standard input, and makes an image that is missing; with sync each page is on the disk before it is answered",
        example: "flashts run sensor.img < first.script",
    },
    JobForm {
        form: "shell [sync] IMAGE",
        does: "answers the commands on standard input one by one, goes on after a mistyped line, and flushes at the end; sync as above",
        example: "flashts shell sensor.img",
    },
    JobForm {
        form: "plan [SECONDS]",
        does: "tells what the tables of the configuration on standard input keep and take, with the seconds between two rows also for how many days",
        example: "flashts plan 10 < first.script",
    },
    JobForm {
        form: "check IMAGE [all]",
        does: "tells whether each table is sound, up to the first that isn't, or with all each broken rule of every table",
        example: "flashts check sensor.img",
    },
    JobForm {
        form: "map IMAGE [svg]",
        does: "shows each page by a letter, or as a picture for a browser",
        example: "flashts map sensor.img svg > sensor.svg",
    },
    JobForm {
        form: "export IMAGE NAME [LOW HIGH]",
        does: "writes the rows of a table as CSV, all or those whose keys are in the range",
        example: "flashts export sensor.img env > env.csv",
    },
    JobForm {
        form: "import IMAGE NAME [gone]",
        does: "puts the rows of the CSV on standard input into a table, with gone also those whose blobs are gone",
        example: "flashts import sensor.img env < env.csv",
    },
    JobForm {
        form: "salvage IMAGE NAME",
        does: "writes the rows of a table that a damaged image still holds, as CSV",
        example: "flashts salvage sensor.img env > env.csv",
    },
    JobForm {
        form: "ship IMAGE COPY NAME COUNT",
        does: "puts the next rows of a table, at most so many, into the same table of a copy, and makes a copy that is missing",
        example: "flashts ship sensor.img copy.img env 1000",
    },
    JobForm {
        form: "help",
        does: "tells this",
        example: "flashts help",
    },
];

/// The jobs in words, and behind them the variable that asks for explanations.
#[derive(Drop)]
pub struct Help;

impl Display for Help {
    fn fmt<W: fmt::Write>(&self, f: &mut fmt::Formatter<W>) -> fmt::Result {
        for job in &JOBS {
            let JobForm {
                form,
                does,
                example,
            } = job;
            write!(f, "flashts {form}\n    {does}\n    $ {example}\n")?;
        }
        f.write_str("FLASHTS_EXPLAIN=1\n")?;
        f.write_str(
            "    in the environment, a job that fails says below its line what there is to say of why and what to do, as it does on a terminal\n",
        )?;
        f.write_str("    $ FLASHTS_EXPLAIN=1 flashts check sensor.img 2> told.text\n")
    }
}
