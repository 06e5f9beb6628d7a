mod bytes;
mod handlers;
mod line_by_line;
mod readers;
mod runs;
mod tokens;
mod wire;

const SPAWN_AND_LIST: &str = r#"{"steps":[
{"user":1001,"op":"spawn"},
{"user":1002,"op":"spawn"},
{"user":1001,"op":"spawn"},
{"user":1001,"op":"list","caller":1000}
]}"#;

const ITS_LINES: &str =
    "1001 1 new 1000 100000\n1002 1 new 2000 104000\n1001 2 new 1001 100001\n1001 3 pids 1000 1001\n";

const ITS_LINES_BY_USER: &str =
    "1001 1 new 1000 100000\n1001 2 new 1001 100001\n1001 3 pids 1000 1001\n1002 1 new 2000 104000\n";
