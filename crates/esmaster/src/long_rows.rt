use crate::command_rows::Row;

// Scripts of many steps, faults or turns.
pub(crate) const LONG: [Row; 11] = [
    // 2,828 submits come to 7,997,584 for one node, and one more to 8,003,241
    Row {
        words: "replay",
        blanks: 0,
        script: [
            r#"{"version":1,"cluster":"c","nodes":[{"name":"a"}],"queues":[{"name":"q","executor":"create_index"}],"clients":[["#,
            "]]}",
            "",
        ],
        pieces: [
            (r#"{"do":"submit","queue":"q","task":{"index":"i"}}"#, 2828),
            ("", 0),
        ],
        comma: ",",
        fails: false,
        room: 1_000_000,
        status: 0,
        written: "report 1\nbatch 1 queue q at 0 tasks 0.0/0 published 2 *\nbatch 2828 queue q at 0 tasks 0.2827/0 unchanged 2\n*",
    },
    Row {
        words: "replay",
        blanks: 0,
        script: [
            r#"{"version":1,"cluster":"c","nodes":[{"name":"a"}],"queues":[{"name":"q","executor":"create_index"}],"clients":[["#,
            "]]}",
            "",
        ],
        pieces: [
            (r#"{"do":"submit","queue":"q","task":{"index":"i"}}"#, 2829),
            ("", 0),
        ],
        comma: ",",
        fails: false,
        room: 1_000_000,
        status: 2,
        written: "refused limit work\n",
    },
    // how many steps and turns there may be, and faults
    Row {
        words: "replay",
        blanks: 0,
        script: [
            r#"{"version":1,"cluster":"c","nodes":[{"name":"a"}],"queues":[{"name":"q","executor":"create_index"}],"clients":[["#,
            "]]}",
            "",
        ],
        pieces: [(r#"{"do":"sleep","ms":0}"#, 4096), ("", 0)],
        comma: ",",
        fails: false,
        room: 1_000_000,
        status: 0,
        written: r#"report 1
node a handed - applied 1
view a {"aliases":{},"indices":{},"settings":{}}
state {"cluster":"c","id":1,"master":"a","metadata":{"created":0,"indices":{},"settings":{},"version":1},"nodes":{"a":{"eligible":true}},"term":1,"version":1}
"#,
    },
    Row {
        words: "replay",
        blanks: 0,
        script: [
            r#"{"version":1,"cluster":"c","nodes":[{"name":"a"}],"queues":[{"name":"q","executor":"create_index"}],"clients":[["#,
            "]]}",
            "",
        ],
        pieces: [(r#"{"do":"sleep","ms":0}"#, 4097), ("", 0)],
        comma: ",",
        fails: false,
        room: 1_000_000,
        status: 2,
        written: "refused limit steps\n",
    },
    Row {
        words: "replay",
        blanks: 0,
        script: [
            r#"{"version":1,"cluster":"demo","nodes":[{"name":"n0"},{"name":"n1"}],"queues":[{"name":"q","executor":"create_index"}],"clients":[[],[]],"faults":["#,
            r#"],"schedule":[]}"#,
            "",
        ],
        pieces: [
            (r#"{"node":"n1","publication":1,"kind":"apply"}"#, 1024),
            ("", 0),
        ],
        comma: ",",
        fails: false,
        room: 1_000_000,
        status: 2,
        written: "refused bad_shape faults[1] twice\n",
    },
    Row {
        words: "replay",
        blanks: 0,
        script: [
            r#"{"version":1,"cluster":"demo","nodes":[{"name":"n0"},{"name":"n1"}],"queues":[{"name":"q","executor":"create_index"}],"clients":[[],[]],"faults":["#,
            r#"],"schedule":[]}"#,
            "",
        ],
        pieces: [
            (r#"{"node":"n1","publication":1,"kind":"apply"}"#, 1025),
            ("", 0),
        ],
        comma: ",",
        fails: false,
        room: 1_000_000,
        status: 2,
        written: "refused limit faults\n",
    },
    Row {
        words: "replay",
        blanks: 0,
        script: [
            r#"{"version":1,"cluster":"demo","nodes":[{"name":"n0"},{"name":"n1"}],"queues":[{"name":"q","executor":"create_index"}],"clients":[[],[]],"faults":[],"schedule":["#,
            "]}",
            "",
        ],
        pieces: [(r#""m""#, 65536), ("", 0)],
        comma: ",",
        fails: false,
        room: 1_000_000,
        status: 0,
        written: r#"report 1
node n0 handed - applied 1
view n0 {"aliases":{},"indices":{},"settings":{}}
node n1 handed - applied 1
view n1 {"aliases":{},"indices":{},"settings":{}}
state {"cluster":"demo","id":1,"master":"n0","metadata":{"created":0,"indices":{},"settings":{},"version":1},"nodes":{"n0":{"eligible":true},"n1":{"eligible":true}},"term":1,"version":1}
"#,
    },
    Row {
        words: "replay",
        blanks: 0,
        script: [
            r#"{"version":1,"cluster":"demo","nodes":[{"name":"n0"},{"name":"n1"}],"queues":[{"name":"q","executor":"create_index"}],"clients":[[],[]],"faults":[],"schedule":["#,
            "]}",
            "",
        ],
        pieces: [(r#""m""#, 65537), ("", 0)],
        comma: ",",
        fails: false,
        room: 1_000_000,
        status: 2,
        written: "refused limit schedule\n",
    },
    // the clock stays at 2^43 - 2: 2,048 sleeps come to 2,046 less; a deadline is no later than that moment, and a sleep at
    // which the clock stays lets a task time out; one without a timeout waits on
    Row {
        words: "replay",
        blanks: 0,
        script: [
            r#"{"version":1,"cluster":"c","nodes":[{"name":"a"}],"queues":[{"name":"slow","executor":"cluster_settings","priority":"LANGUID"},{"name":"glob","executor":"cluster_settings"}],"clients":[["#,
            r#",{"do":"submit","queue":"slow","task":{"key":"i","value":"1"},"timeout":4294967295},{"do":"sleep","ms":2045},{"do":"sleep","ms":4294967295},{"do":"submit","queue":"slow","task":{"key":"j","value":"1"},"timeout":1},{"do":"submit","queue":"glob","task":{"key":"k","value":"1"}},{"do":"sleep","ms":0}]],"schedule":["#,
            r#","m"]}"#,
        ],
        pieces: [
            (r#"{"do":"sleep","ms":4294967295}"#, 2048),
            (r#""c0""#, 2054),
        ],
        comma: ",",
        fails: false,
        room: 1_000_000,
        status: 0,
        written: r#"report 1
batch 1 queue glob at 8796093022206 tasks 0.2052/0 published 2 id 2 commit 8796093022206 diffs 1 fulls 0 accepted 1
task 0.2048 at 8796093020160 timeout 8796093022206 8796093022206
task 0.2051 at 8796093022206 timeout 8796093022206 8796093022206
task 0.2052 at 8796093022206 ok 2
node a handed 2 applied 1,2
apply a 1>2 high 1 normal 1 low 1 listeners 2 created - deleted - changed - joined - left - settings k
view a {"aliases":{},"indices":{},"settings":{"k":"1"}}
state {"cluster":"c","id":2,"master":"a","metadata":{"created":0,"indices":{},"settings":{"k":"1"},"version":2},"nodes":{"a":{"eligible":true}},"term":1,"version":2}
"#,
    },
    // 1,001 submits and 3,996 reads come to 3,999,996, and one read more to 4,000,997
    Row {
        words: "replay",
        blanks: 0,
        script: [
            r#"{"version":1,"cluster":"demo","nodes":[{"name":"n0"},{"name":"n1"}],"queues":[{"name":"q","executor":"create_index"}],"clients":[["#,
            "],[",
            r#"]],"faults":[],"schedule":[]}"#,
        ],
        pieces: [
            (r#"{"do":"submit","queue":"q","task":{"index":"a"}}"#, 1001),
            (r#"{"do":"read","node":"n0","alias":"x"}"#, 3996),
        ],
        comma: ",",
        fails: false,
        room: 1_000_000,
        status: 2,
        written: "refused bad_shape $ not_built\n",
    },
    Row {
        words: "replay",
        blanks: 0,
        script: [
            r#"{"version":1,"cluster":"demo","nodes":[{"name":"n0"},{"name":"n1"}],"queues":[{"name":"q","executor":"create_index"}],"clients":[["#,
            "],[",
            r#"]],"faults":[],"schedule":[]}"#,
        ],
        pieces: [
            (r#"{"do":"submit","queue":"q","task":{"index":"a"}}"#, 1001),
            (r#"{"do":"read","node":"n0","alias":"x"}"#, 3997),
        ],
        comma: ",",
        fails: false,
        room: 1_000_000,
        status: 2,
        written: "refused limit work\n",
    },
];

// Scripts of as many bytes as there may be, and of one more.
pub(crate) const WIDE: [Row; 2] = [
    // one byte too many
    Row {
        words: "replay",
        blanks: 16_777_217,
        script: ["", "", ""],
        pieces: [("", 0), ("", 0)],
        comma: ",",
        fails: false,
        room: 1_000_000,
        status: 6,
        written: "",
    },
    Row {
        words: "replay",
        blanks: 16_777_216,
        script: ["", "", ""],
        pieces: [("", 0), ("", 0)],
        comma: ",",
        fails: false,
        room: 1_000_000,
        status: 2,
        written: "refused not_json\n",
    },
];
