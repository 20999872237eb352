// Why a line of a configuration is refused.
ghost use Rattle.fl_script.specs.CommandView.{command_view};
ghost use Rattle.fl_reason.specs.Reason.{TakesOr};

use crate::tail::Tail;
use crate::word::Word;
use fl_base::Name;
use fl_config::Config;
use fl_plan::ConfigRefusal;
use fl_schema::ColumnType;
use fl_script::{Command, LineRoom, read_line};

/// Why a line of a configuration is refused, with its words.
#[derive(Clone, Copy)]
pub struct ConfigReason {
    /// The first refusal that applies.
    pub refusal: ConfigRefusal,
    /// What the line says.
    pub line: ConfigLine,
}

/// What a line of a configuration says, and the device line before it.
#[derive(Clone, Copy)]
pub struct ConfigLine {
    /// The bytes of a page and the pages of a block: those of the line, or of the device line before it.
    pub page: u64,
    pub block: u64,
    /// The blocks of the tables before.
    pub blocks: u64,
    /// The name of the table; none where it's a device line.
    pub name: Option<Name>,
    /// The bytes of a key and of a row.
    pub key: u64,
    pub row: u64,
    /// How many columns there are, and the first word that is no type of one.
    pub columns: usize,
    pub no_type: Option<Word>,
    /// The blocks of the rings; 0 where there is no log.
    pub rows: u64,
    pub index: u64,
    pub var: u64,
    pub log: u64,
    pub bits: u64,
    pub width: u64,
    pub error: u64,
    pub blob: u64,
}

impl ConfigLine {
    /// A device line.
    pub fn of_device(page: u64, block: u64) -> ConfigLine {
        ConfigLine {
            page,
            block,
            blocks: 0,
            name: None,
            key: 0,
            row: 0,
            columns: 0,
            no_type: None,
            rows: 0,
            index: 0,
            var: 0,
            log: 0,
            bits: 0,
            width: 0,
            error: 0,
            blob: 0,
        }
    }

    // The same with the columns in this word: their number, their bytes, and the first that has no type.
    fn add_columns(&mut self, word: &[u8]) {
        let parts = word.split(|byte| *byte == b',');
        for part in parts {
            self.columns = self.columns.saturating_add(1);
            match ColumnType::from_name(part) {
                Some(column) => self.row = self.row.saturating_add(u64::from(column.width())),
                None => {
                    if self.no_type.is_none() {
                        self.no_type = Some(Word::of(part));
                    }
                }
            }
        }
    }
}

// What the line says, behind this device line.
fn line_of(command: &Command, room: &LineRoom, device: &ConfigLine, config: &Config) -> ConfigLine {
    match command {
        Command::Device { page, block } => ConfigLine::of_device(*page, *block),
        Command::Table {
            name,
            key,
            rows,
            index,
            var,
            bits,
            base: _,
            width,
            error,
            blob,
            full: _,
            log,
        } => {
            let mut line = *device;
            line.blocks = u64::from(config.blocks());
            line.name = Some(*name);
            line.key = *key;
            line.row = key.saturating_add(if *var > 0 { 10 } else { 0 });
            line.add_columns(room.bytes());
            line.rows = *rows;
            line.index = *index;
            line.var = *var;
            line.log = log.unwrap_or(0);
            line.bits = *bits;
            line.width = *width;
            line.error = *error;
            line.blob = *blob;
            line
        }
        _ => *device,
    }
}

/// Takes one more line of a configuration, behind this device line, and tells why it is refused, if it is; then it changes
/// nothing.
pub fn refusal_of(
    config: &mut Config,
    command: &Command,
    room: &LineRoom,
    device: &ConfigLine,
) -> Option<ConfigReason>
    ensures takes { TakesOr config.old (command_view command.now room.now) result config.new }
{
    let line = line_of(command, room, device, config);
    match config.add(command, room) {
        Ok(()) => None,
        Err(refusal) => Some(ConfigReason { refusal, line }),
    }
}

/// Why the first line of a script's configuration that is refused is refused. None where the script's front isn't kept, or no
/// line of the configuration is refused before one that is no command.
pub fn config_reason(script: &Tail, room: &mut LineRoom) -> Option<ConfigReason> {
    if script.is_cut() {
        return None;
    }
    let mut config = Config::new();
    let mut device = ConfigLine::of_device(0, 0);
    let lines = script.bytes().split(|byte| *byte == b'\n');
    for line in lines {
        let Ok(command) = read_line(line, room) else {
            return None;
        };
        let reason = refusal_of(&mut config, &command, room, &device);
        if reason.is_some() {
            return reason;
        }
        if let Command::Device { page, block } = command {
            device = ConfigLine::of_device(page, block);
        }
    }
    None
}

/// The configuration of a script, which ends at its first other command. None where its front isn't kept, or one of these
/// lines is refused.
pub(crate) fn config_of(script: &Tail, room: &mut LineRoom) -> Option<Config> {
    if script.is_cut() {
        return None;
    }
    let mut config = Config::new();
    let lines = script.bytes().split(|byte| *byte == b'\n');
    for line in lines {
        let Ok(command) = read_line(line, room) else {
            return None;
        };
        match command {
            Command::Nothing | Command::Device { .. } | Command::Table { .. } => {}
            _ => break,
        }
        if config.add(&command, room).is_err() {
            return None;
        }
    }
    Some(config)
}
