/// The script before its clients, where a row's script begins with `@`.
pub(crate) const BASE: &str =
    r#"{"version":1,"cluster":"demo","nodes":[{"name":"n0"}],"queues":[{"name":"make","executor":"create_index","priority":"NORMAL"},{"name":"drop","executor":"delete_index","priority":"NORMAL"},{"name":"conf","executor":"index_settings","priority":"NORMAL"},{"name":"gate","executor":"open_close","priority":"NORMAL"},{"name":"alias","executor":"aliases","priority":"NORMAL"},{"name":"atom","executor":"aliases_atomic","priority":"NORMAL"},{"name":"glob","executor":"cluster_settings","priority":"NORMAL"},{"name":"node","executor":"nodes","priority":"IMMEDIATE"},{"name":"vote","executor":"reelect","priority":"IMMEDIATE"},{"name":"slow","executor":"cluster_settings","priority":"LANGUID"},{"name":"fast","executor":"cluster_settings","priority":"IMMEDIATE"}],"clients":"#;

/// A command on a script: its words, the script in pieces, how the edges are, the status, and what is written.
#[derive(Clone, Copy)]
pub(crate) struct Row {
    pub(crate) words: &'static str,

    /// How many spaces stand before the script.
    pub(crate) blanks: usize,

    /// A text, a piece so many times, with its number in place of `#`, a text, another piece, and a text.
    pub(crate) script: [&'static str; 3],
    pub(crate) pieces: [(&'static str, u32); 2],

    /// What stands between a piece and the next.
    pub(crate) comma: &'static str,

    /// Whether the input fails as it is read.
    pub(crate) fails: bool,
    pub(crate) room: usize,
    pub(crate) status: u8,

    /// What is written; `*` stands for any text.
    pub(crate) written: &'static str,
}

// Each worked out by hand.
pub(crate) const ROWS: [Row; 31] = [
    // a script without clients, and clients without steps
    Row {
        words: "replay",
        blanks: 0,
        script: ["@[]}", "", ""],
        pieces: [("", 0), ("", 0)],
        comma: ",",
        fails: false,
        room: 1_000_000,
        status: 0,
        written: r#"report 1
node n0 handed - applied 1
view n0 {"aliases":{},"indices":{},"settings":{}}
state {"cluster":"demo","id":1,"master":"n0","metadata":{"created":0,"indices":{},"settings":{},"version":1},"nodes":{"n0":{"eligible":true}},"term":1,"version":1}
"#,
    },
    Row {
        words: "replay",
        blanks: 0,
        script: ["@[[]]}", "", ""],
        pieces: [("", 0), ("", 0)],
        comma: ",",
        fails: false,
        room: 1_000_000,
        status: 0,
        written: r#"report 1
node n0 handed - applied 1
view n0 {"aliases":{},"indices":{},"settings":{}}
state {"cluster":"demo","id":1,"master":"n0","metadata":{"created":0,"indices":{},"settings":{},"version":1},"nodes":{"n0":{"eligible":true}},"term":1,"version":1}
"#,
    },
    Row {
        words: "replay",
        blanks: 0,
        script: ["@[[],[]]}", "", ""],
        pieces: [("", 0), ("", 0)],
        comma: ",",
        fails: false,
        room: 1_000_000,
        status: 0,
        written: r#"report 1
node n0 handed - applied 1
view n0 {"aliases":{},"indices":{},"settings":{}}
state {"cluster":"demo","id":1,"master":"n0","metadata":{"created":0,"indices":{},"settings":{},"version":1},"nodes":{"n0":{"eligible":true}},"term":1,"version":1}
"#,
    },
    // submits, each of which is a batch
    Row {
        words: "replay",
        blanks: 0,
        script: [
            r#"@[[{"do":"submit","queue":"make","task":{"index":"logs-1"}}]]}"#,
            "",
            "",
        ],
        pieces: [("", 0), ("", 0)],
        comma: ",",
        fails: false,
        room: 1_000_000,
        status: 0,
        written: r#"report 1
batch 1 queue make at 0 tasks 0.0/0 published 2 id 2 commit 0 diffs 1 fulls 0 accepted 1
task 0.0 at 0 ok 2
node n0 handed 2 applied 1,2
apply n0 1>2 high 1 normal 1 low 1 listeners 2 created logs-1 deleted - changed - joined - left - settings -
view n0 {"aliases":{},"indices":{"logs-1":1},"settings":{}}
state {"cluster":"demo","id":2,"master":"n0","metadata":{"created":1,"indices":{"logs-1":{"aliases":[],"aliases_version":1,"id":1,"open":true,"replicas":1,"settings_version":1,"shards":1,"version":1}},"settings":{},"version":2},"nodes":{"n0":{"eligible":true}},"term":1,"version":2}
"#,
    },
    Row {
        words: "replay",
        blanks: 0,
        script: [
            r#"@[[{"do":"submit","queue":"make","task":{"index":"a"}},{"do":"submit","queue":"make","task":{"index":"b"}}]]}"#,
            "",
            "",
        ],
        pieces: [("", 0), ("", 0)],
        comma: ",",
        fails: false,
        room: 1_000_000,
        status: 0,
        written: r#"report 1
batch 1 queue make at 0 tasks 0.0/0 published 2 id 2 commit 0 diffs 1 fulls 0 accepted 1
batch 2 queue make at 0 tasks 0.1/0 published 3 id 3 commit 0 diffs 1 fulls 0 accepted 1
task 0.0 at 0 ok 2
task 0.1 at 0 ok 3
node n0 handed 2,3 applied 1,2,3
apply n0 1>2 high 1 normal 1 low 1 listeners 2 created a deleted - changed - joined - left - settings -
apply n0 2>3 high 2 normal 2 low 2 listeners 3 created b deleted - changed - joined - left - settings -
view n0 {"aliases":{},"indices":{"a":1,"b":2},"settings":{}}
state {"cluster":"demo","id":3,"master":"n0","metadata":{"created":2,"indices":{"a":{"aliases":[],"aliases_version":1,"id":1,"open":true,"replicas":1,"settings_version":1,"shards":1,"version":1},"b":{"aliases":[],"aliases_version":1,"id":2,"open":true,"replicas":1,"settings_version":1,"shards":1,"version":1}},"settings":{},"version":3},"nodes":{"n0":{"eligible":true}},"term":1,"version":3}
"#,
    },
    Row {
        words: "replay",
        blanks: 0,
        script: [
            r#"@[[{"do":"submit","queue":"make","task":{"index":"a"}},{"do":"submit","queue":"make","task":{"index":"a"}}]]}"#,
            "",
            "",
        ],
        pieces: [("", 0), ("", 0)],
        comma: ",",
        fails: false,
        room: 1_000_000,
        status: 0,
        written: r#"report 1
batch 1 queue make at 0 tasks 0.0/0 published 2 id 2 commit 0 diffs 1 fulls 0 accepted 1
batch 2 queue make at 0 tasks 0.1/0 unchanged 2
task 0.0 at 0 ok 2
task 0.1 at 0 refused exists
node n0 handed 2 applied 1,2
apply n0 1>2 high 1 normal 1 low 1 listeners 2 created a deleted - changed - joined - left - settings -
view n0 {"aliases":{},"indices":{"a":1},"settings":{}}
state {"cluster":"demo","id":2,"master":"n0","metadata":{"created":1,"indices":{"a":{"aliases":[],"aliases_version":1,"id":1,"open":true,"replicas":1,"settings_version":1,"shards":1,"version":1}},"settings":{},"version":2},"nodes":{"n0":{"eligible":true}},"term":1,"version":2}
"#,
    },
    // an index that is deleted twice; each step sees the batch that the client awaited last
    Row {
        words: "replay",
        blanks: 0,
        script: [
            r#"@[[{"do":"submit","queue":"make","task":{"index":"a"}},{"do":"await","step":0,"for":"task"},{"do":"submit","queue":"drop","task":{"index":"a"}},{"do":"await","step":2,"for":"task"},{"do":"submit","queue":"drop","task":{"index":"a"}}]]}"#,
            "",
            "",
        ],
        pieces: [("", 0), ("", 0)],
        comma: ",",
        fails: false,
        room: 1_000_000,
        status: 0,
        written: r#"report 1
batch 1 queue make at 0 tasks 0.0/0 published 2 id 2 commit 0 diffs 1 fulls 0 accepted 1
batch 2 queue drop at 0 tasks 0.2/1 published 3 id 3 commit 0 diffs 1 fulls 0 accepted 1
batch 3 queue drop at 0 tasks 0.4/2 unchanged 3
task 0.0 at 0 ok 2
task 0.2 at 0 ok 3
task 0.4 at 0 refused not_found
node n0 handed 2,3 applied 1,2,3
apply n0 1>2 high 1 normal 1 low 1 listeners 2 created a deleted - changed - joined - left - settings -
apply n0 2>3 high 2 normal 2 low 2 listeners 3 created - deleted a changed - joined - left - settings -
view n0 {"aliases":{},"indices":{},"settings":{}}
state {"cluster":"demo","id":3,"master":"n0","metadata":{"created":1,"indices":{},"settings":{},"version":3},"nodes":{"n0":{"eligible":true}},"term":1,"version":3}
"#,
    },
    // the greatest batch that was awaited counts, and not the last one
    Row {
        words: "replay",
        blanks: 0,
        script: [
            r#"@[[{"do":"submit","queue":"make","task":{"index":"a"}},{"do":"await","step":0,"for":"task"},{"do":"submit","queue":"alias","task":{"index":"a","alias":"x","action":"add"}},{"do":"submit","queue":"glob","task":{"key":"k","value":"v"}},{"do":"await","step":3,"for":"task"},{"do":"await","step":2,"for":"task"},{"do":"submit","queue":"drop","task":{"index":"a"}}]]}"#,
            "",
            "",
        ],
        pieces: [("", 0), ("", 0)],
        comma: ",",
        fails: false,
        room: 1_000_000,
        status: 0,
        written: r#"report 1
batch 1 queue make at 0 tasks 0.0/0 published 2 id 2 commit 0 diffs 1 fulls 0 accepted 1
batch 2 queue alias at 0 tasks 0.2/1 published 3 id 3 commit 0 diffs 1 fulls 0 accepted 1
batch 3 queue glob at 0 tasks 0.3/1 published 4 id 4 commit 0 diffs 1 fulls 0 accepted 1
batch 4 queue drop at 0 tasks 0.6/3 published 5 id 5 commit 0 diffs 1 fulls 0 accepted 1
task 0.0 at 0 ok 2
task 0.2 at 0 ok 3
task 0.3 at 0 ok 4
task 0.6 at 0 ok 5
node n0 handed 2,3,4,5 applied 1,2,3,4,5
apply n0 1>2 high 1 normal 1 low 1 listeners 2 created a deleted - changed - joined - left - settings -
apply n0 2>3 high 2 normal 2 low 2 listeners 3 created - deleted - changed a joined - left - settings -
apply n0 3>4 high 3 normal 3 low 3 listeners 4 created - deleted - changed - joined - left - settings k
apply n0 4>5 high 4 normal 4 low 4 listeners 5 created - deleted a changed - joined - left - settings -
view n0 {"aliases":{},"indices":{},"settings":{"k":"v"}}
state {"cluster":"demo","id":5,"master":"n0","metadata":{"created":1,"indices":{},"settings":{"k":"v"},"version":5},"nodes":{"n0":{"eligible":true}},"term":1,"version":5}
"#,
    },
    // the number of shards is final
    Row {
        words: "replay",
        blanks: 0,
        script: [
            r#"@[[{"do":"submit","queue":"make","task":{"index":"a"}},{"do":"await","step":0,"for":"task"},{"do":"submit","queue":"conf","task":{"index":"a","key":"index.number_of_shards","value":2}}]]}"#,
            "",
            "",
        ],
        pieces: [("", 0), ("", 0)],
        comma: ",",
        fails: false,
        room: 1_000_000,
        status: 0,
        written: r#"report 1
batch 1 queue make at 0 tasks 0.0/0 published 2 id 2 commit 0 diffs 1 fulls 0 accepted 1
batch 2 queue conf at 0 tasks 0.2/1 unchanged 2
task 0.0 at 0 ok 2
task 0.2 at 0 refused final_setting
node n0 handed 2 applied 1,2
apply n0 1>2 high 1 normal 1 low 1 listeners 2 created a deleted - changed - joined - left - settings -
view n0 {"aliases":{},"indices":{"a":1},"settings":{}}
state {"cluster":"demo","id":2,"master":"n0","metadata":{"created":1,"indices":{"a":{"aliases":[],"aliases_version":1,"id":1,"open":true,"replicas":1,"settings_version":1,"shards":1,"version":1}},"settings":{},"version":2},"nodes":{"n0":{"eligible":true}},"term":1,"version":2}
"#,
    },
    // a refused alias fails its atomic batch, whose end can be awaited too
    Row {
        words: "replay",
        blanks: 0,
        script: [
            r#"@[[{"do":"submit","queue":"make","task":{"index":"a"}},{"do":"submit","queue":"atom","task":{"index":"a","alias":"x","action":"add"}},{"do":"submit","queue":"atom","task":{"index":"b","alias":"y","action":"add"}},{"do":"await","step":2,"for":"task"},{"do":"submit","queue":"atom","task":{"index":"a","alias":"z","action":"remove"}}]]}"#,
            "",
            "",
        ],
        pieces: [("", 0), ("", 0)],
        comma: ",",
        fails: false,
        room: 1_000_000,
        status: 0,
        written: r#"report 1
batch 1 queue make at 0 tasks 0.0/0 published 2 id 2 commit 0 diffs 1 fulls 0 accepted 1
batch 2 queue atom at 0 tasks 0.1/0 published 3 id 3 commit 0 diffs 1 fulls 0 accepted 1
batch 3 queue atom at 0 tasks 0.2/0 batch_failed 0 not_found
batch 4 queue atom at 0 tasks 0.4/3 batch_failed 0 not_found
task 0.0 at 0 ok 2
task 0.1 at 0 ok 3
task 0.2 at 0 batch_failed 0 not_found
task 0.4 at 0 batch_failed 0 not_found
node n0 handed 2,3 applied 1,2,3
apply n0 1>2 high 1 normal 1 low 1 listeners 2 created a deleted - changed - joined - left - settings -
apply n0 2>3 high 2 normal 2 low 2 listeners 3 created - deleted - changed a joined - left - settings -
view n0 {"aliases":{"x":["a"]},"indices":{"a":1},"settings":{}}
state {"cluster":"demo","id":3,"master":"n0","metadata":{"created":1,"indices":{"a":{"aliases":["x"],"aliases_version":2,"id":1,"open":true,"replicas":1,"settings_version":1,"shards":1,"version":2}},"settings":{},"version":3},"nodes":{"n0":{"eligible":true}},"term":1,"version":3}
"#,
    },
    // what is set as it was changes nothing
    Row {
        words: "replay",
        blanks: 0,
        script: [
            r#"@[[{"do":"submit","queue":"make","task":{"index":"a"}},{"do":"submit","queue":"conf","task":{"index":"a","key":"index.number_of_replicas","value":1}},{"do":"submit","queue":"conf","task":{"index":"a","key":"index.number_of_replicas","value":2}},{"do":"submit","queue":"gate","task":{"index":"a","open":true}},{"do":"submit","queue":"gate","task":{"index":"a","open":false}}]]}"#,
            "",
            "",
        ],
        pieces: [("", 0), ("", 0)],
        comma: ",",
        fails: false,
        room: 1_000_000,
        status: 0,
        written: r#"report 1
batch 1 queue make at 0 tasks 0.0/0 published 2 id 2 commit 0 diffs 1 fulls 0 accepted 1
batch 2 queue conf at 0 tasks 0.1/0 unchanged 2
batch 3 queue conf at 0 tasks 0.2/0 published 3 id 3 commit 0 diffs 1 fulls 0 accepted 1
batch 4 queue gate at 0 tasks 0.3/0 unchanged 3
batch 5 queue gate at 0 tasks 0.4/0 published 4 id 4 commit 0 diffs 1 fulls 0 accepted 1
task 0.0 at 0 ok 2
task 0.1 at 0 unchanged 2
task 0.2 at 0 ok 3
task 0.3 at 0 unchanged 3
task 0.4 at 0 ok 4
node n0 handed 2,3,4 applied 1,2,3,4
apply n0 1>2 high 1 normal 1 low 1 listeners 2 created a deleted - changed - joined - left - settings -
apply n0 2>3 high 2 normal 2 low 2 listeners 3 created - deleted - changed a joined - left - settings -
apply n0 3>4 high 3 normal 3 low 3 listeners 4 created - deleted - changed a joined - left - settings -
view n0 {"aliases":{},"indices":{"a":1},"settings":{}}
state {"cluster":"demo","id":4,"master":"n0","metadata":{"created":1,"indices":{"a":{"aliases":[],"aliases_version":1,"id":1,"open":false,"replicas":2,"settings_version":2,"shards":1,"version":3}},"settings":{},"version":4},"nodes":{"n0":{"eligible":true}},"term":1,"version":4}
"#,
    },
    // a reelect raises the term and no metadata version
    Row {
        words: "replay",
        blanks: 0,
        script: [
            r#"@[[{"do":"submit","queue":"vote","task":{}},{"do":"submit","queue":"glob","task":{"key":"k","value":null}}]]}"#,
            "",
            "",
        ],
        pieces: [("", 0), ("", 0)],
        comma: ",",
        fails: false,
        room: 1_000_000,
        status: 0,
        written: r#"report 1
batch 1 queue vote at 0 tasks 0.0/0 published 2 id 2 commit 0 diffs 1 fulls 0 accepted 1
batch 2 queue glob at 0 tasks 0.1/0 unchanged 2
task 0.0 at 0 ok 2
task 0.1 at 0 unchanged 2
node n0 handed 2 applied 1,2
apply n0 1>2 high 1 normal 1 low 1 listeners 2 created - deleted - changed - joined - left - settings -
view n0 {"aliases":{},"indices":{},"settings":{}}
state {"cluster":"demo","id":2,"master":"n0","metadata":{"created":0,"indices":{},"settings":{},"version":1},"nodes":{"n0":{"eligible":true}},"term":2,"version":2}
"#,
    },
    // each of many steps is a batch of its own
    Row {
        words: "replay",
        blanks: 0,
        script: ["@[[", "]]}", ""],
        pieces: [
            (
                r#"{"do":"submit","queue":"make","task":{"index":"i#"}}"#,
                200,
            ),
            ("", 0),
        ],
        comma: ",",
        fails: false,
        room: 1_000_000,
        status: 0,
        written: "report 1\nbatch 1 queue *batch 200 queue make at 0 tasks 0.199/0 published 201 id 201 commit 0 diffs 1 fulls 0 accepted 1\ntask 0.0 at 0 ok 2\n*task 0.199 at 0 ok 201\nnode n0 handed 2,3,*,201 applied 1,2,*\napply n0 200>201 high 200 normal 200 low 200 listeners 201 created i199 deleted - changed - joined - left - settings -\nview n0 *\nstate *",
    },
    // an index name has at most 255 bytes
    Row {
        words: "replay",
        blanks: 0,
        script: [
            r#"@[[{"do":"submit","queue":"make","task":{"index":""#,
            r#""}}]]}"#,
            "",
        ],
        pieces: [("a", 255), ("", 0)],
        comma: "",
        fails: false,
        room: 1_000_000,
        status: 0,
        written: "report 1\n*\ntask 0.0 at 0 ok 2\nnode n0 handed 2 applied 1,2\n*\nstate *",
    },
    Row {
        words: "replay",
        blanks: 0,
        script: [
            r#"@[[{"do":"submit","queue":"make","task":{"index":""#,
            r#""}}]]}"#,
            "",
        ],
        pieces: [("a", 256), ("", 0)],
        comma: "",
        fails: false,
        room: 1_000_000,
        status: 0,
        written: "report 1\n* unchanged 1\ntask 0.0 at 0 refused invalid_name\nnode n0 handed - applied 1\nview n0 *\nstate *",
    },
    // several nodes: a node joins, leaves and joins again; what is refused of nodes; and what a node that joined is sent
    Row {
        words: "replay",
        blanks: 0,
        script: [
            r#"{"version":1,"cluster":"demo","nodes":[{"name":"n0"},{"name":"n1"},{"name":"n2","member":false}],"queues":[{"name":"node","executor":"nodes","priority":"IMMEDIATE"}],"clients":[[{"do":"submit","queue":"node","task":{"node":"n2","action":"join"}},{"do":"await","step":0,"for":"task"},{"do":"submit","queue":"node","task":{"node":"n2","action":"leave"}},{"do":"await","step":2,"for":"task"},{"do":"submit","queue":"node","task":{"node":"n2","action":"join"}}]]}"#,
            "",
            "",
        ],
        pieces: [("", 0), ("", 0)],
        comma: ",",
        fails: false,
        room: 1_000_000,
        status: 0,
        written: r#"report 1
batch 1 queue node at 0 tasks 0.0/0 published 2 id 2 commit 0 diffs 2 fulls 1 accepted 3
batch 2 queue node at 0 tasks 0.2/1 published 3 id 3 commit 0 diffs 2 fulls 0 accepted 2
batch 3 queue node at 0 tasks 0.4/2 published 4 id 4 commit 0 diffs 2 fulls 1 accepted 3
task 0.0 at 0 ok 2
task 0.2 at 0 ok 3
task 0.4 at 0 ok 4
node n0 handed 2,3,4 applied 1,2,3,4
apply n0 1>2 high 1 normal 1 low 1 listeners 2 created - deleted - changed - joined n2 left - settings -
apply n0 2>3 high 2 normal 2 low 2 listeners 3 created - deleted - changed - joined - left n2 settings -
apply n0 3>4 high 3 normal 3 low 3 listeners 4 created - deleted - changed - joined n2 left - settings -
view n0 {"aliases":{},"indices":{},"settings":{}}
node n1 handed 2,3,4 applied 1,2,3,4
apply n1 1>2 high 1 normal 1 low 1 listeners 2 created - deleted - changed - joined n2 left - settings -
apply n1 2>3 high 2 normal 2 low 2 listeners 3 created - deleted - changed - joined - left n2 settings -
apply n1 3>4 high 3 normal 3 low 3 listeners 4 created - deleted - changed - joined n2 left - settings -
view n1 {"aliases":{},"indices":{},"settings":{}}
node n2 handed 2,4 applied 0,2,4
apply n2 0>2 high 0 normal 0 low 0 listeners 2 created - deleted - changed - joined n0,n1,n2 left - settings -
apply n2 2>4 high 2 normal 2 low 2 listeners 4 created - deleted - changed - joined - left - settings -
view n2 {"aliases":{},"indices":{},"settings":{}}
state {"cluster":"demo","id":4,"master":"n0","metadata":{"created":0,"indices":{},"settings":{},"version":1},"nodes":{"n0":{"eligible":true},"n1":{"eligible":true},"n2":{"eligible":true}},"term":1,"version":4}
"#,
    },
    Row {
        words: "replay",
        blanks: 0,
        script: [
            r#"{"version":1,"cluster":"demo","nodes":[{"name":"n0"},{"name":"n1","member":false}],"queues":[{"name":"node","executor":"nodes"}],"clients":[[{"do":"submit","queue":"node","task":{"node":"n0","action":"join"}},{"do":"submit","queue":"node","task":{"node":"n1","action":"leave"}},{"do":"submit","queue":"node","task":{"node":"n0","action":"leave"}}]]}"#,
            "",
            "",
        ],
        pieces: [("", 0), ("", 0)],
        comma: ",",
        fails: false,
        room: 1_000_000,
        status: 0,
        written: r#"report 1
batch 1 queue node at 0 tasks 0.0/0 unchanged 1
batch 2 queue node at 0 tasks 0.1/0 unchanged 1
batch 3 queue node at 0 tasks 0.2/0 unchanged 1
task 0.0 at 0 refused node_known
task 0.1 at 0 refused node_unknown
task 0.2 at 0 refused master_may_not_leave
node n0 handed - applied 1
view n0 {"aliases":{},"indices":{},"settings":{}}
node n1 handed - applied 0
view n1 {"aliases":{},"indices":{},"settings":{}}
state {"cluster":"demo","id":1,"master":"n0","metadata":{"created":0,"indices":{},"settings":{},"version":1},"nodes":{"n0":{"eligible":true}},"term":1,"version":1}
"#,
    },
    Row {
        words: "replay",
        blanks: 0,
        script: [
            r#"{"version":1,"cluster":"demo","nodes":[{"name":"n0"},{"name":"n1"},{"name":"n2","eligible":false,"member":false}],"queues":[{"name":"node","executor":"nodes"},{"name":"glob","executor":"cluster_settings"}],"clients":[[{"do":"submit","queue":"node","task":{"node":"n2","action":"join"}},{"do":"submit","queue":"glob","task":{"key":"a","value":"v"}},{"do":"submit","queue":"glob","task":{"key":"b","value":"v"}}]]}"#,
            "",
            "",
        ],
        pieces: [("", 0), ("", 0)],
        comma: ",",
        fails: false,
        room: 1_000_000,
        status: 0,
        written: r#"report 1
batch 1 queue node at 0 tasks 0.0/0 published 2 id 2 commit 0 diffs 2 fulls 1 accepted 3
batch 2 queue glob at 0 tasks 0.1/0 published 3 id 3 commit 0 diffs 3 fulls 0 accepted 3
batch 3 queue glob at 0 tasks 0.2/0 published 4 id 4 commit 0 diffs 3 fulls 0 accepted 3
task 0.0 at 0 ok 2
task 0.1 at 0 ok 3
task 0.2 at 0 ok 4
node n0 handed 2,3,4 applied 1,2,3,4
apply n0 1>2 high 1 normal 1 low 1 listeners 2 created - deleted - changed - joined n2 left - settings -
apply n0 2>3 high 2 normal 2 low 2 listeners 3 created - deleted - changed - joined - left - settings a
apply n0 3>4 high 3 normal 3 low 3 listeners 4 created - deleted - changed - joined - left - settings b
view n0 {"aliases":{},"indices":{},"settings":{"a":"v","b":"v"}}
node n1 handed 2,3,4 applied 1,2,3,4
apply n1 1>2 high 1 normal 1 low 1 listeners 2 created - deleted - changed - joined n2 left - settings -
apply n1 2>3 high 2 normal 2 low 2 listeners 3 created - deleted - changed - joined - left - settings a
apply n1 3>4 high 3 normal 3 low 3 listeners 4 created - deleted - changed - joined - left - settings b
view n1 {"aliases":{},"indices":{},"settings":{"a":"v","b":"v"}}
node n2 handed 2,3,4 applied 0,2,3,4
apply n2 0>2 high 0 normal 0 low 0 listeners 2 created - deleted - changed - joined n0,n1,n2 left - settings -
apply n2 2>3 high 2 normal 2 low 2 listeners 3 created - deleted - changed - joined - left - settings a
apply n2 3>4 high 3 normal 3 low 3 listeners 4 created - deleted - changed - joined - left - settings b
view n2 {"aliases":{},"indices":{},"settings":{"a":"v","b":"v"}}
state {"cluster":"demo","id":4,"master":"n0","metadata":{"created":0,"indices":{},"settings":{"a":"v","b":"v"},"version":3},"nodes":{"n0":{"eligible":true},"n1":{"eligible":true},"n2":{"eligible":false}},"term":1,"version":4}
"#,
    },
    // refused scripts
    Row {
        words: "replay",
        blanks: 0,
        script: [
            r#"@[[{"do":"submit","queue":"none","task":{"index":"a"}}]]}"#,
            "",
            "",
        ],
        pieces: [("", 0), ("", 0)],
        comma: ",",
        fails: false,
        room: 1_000_000,
        status: 2,
        written: "refused bad_shape clients[0][0].queue reference\n",
    },
    Row {
        words: "replay",
        blanks: 0,
        script: [r#"@[[{"do":"close"}]]}"#, "", ""],
        pieces: [("", 0), ("", 0)],
        comma: ",",
        fails: false,
        room: 1_000_000,
        status: 2,
        written: "refused bad_shape $ not_built\n",
    },
    Row {
        words: "replay",
        blanks: 0,
        script: ["@[[}", "", ""],
        pieces: [("", 0), ("", 0)],
        comma: ",",
        fails: false,
        room: 1_000_000,
        status: 2,
        written: "refused not_json\n",
    },
    // input that is no JSON
    Row {
        words: "replay",
        blanks: 0,
        script: ["", "", ""],
        pieces: [("", 0), ("", 0)],
        comma: ",",
        fails: false,
        room: 1_000_000,
        status: 2,
        written: "refused not_json\n",
    },
    Row {
        words: "replay",
        blanks: 0,
        script: [r#"{"version":1,"cluste"#, "", ""],
        pieces: [("", 0), ("", 0)],
        comma: ",",
        fails: false,
        room: 1_000_000,
        status: 2,
        written: "refused not_json\n",
    },
    Row {
        words: "replay",
        blanks: 0,
        script: ["\0", "", ""],
        pieces: [("", 0), ("", 0)],
        comma: ",",
        fails: false,
        room: 1_000_000,
        status: 2,
        written: "refused not_json\n",
    },
    // a failing edge
    Row {
        words: "replay",
        blanks: 0,
        script: ["@[]}", "", ""],
        pieces: [("", 0), ("", 0)],
        comma: ",",
        fails: true,
        room: 1_000_000,
        status: 3,
        written: "",
    },
    Row {
        words: "replay",
        blanks: 0,
        script: ["@[]}", "", ""],
        pieces: [("", 0), ("", 0)],
        comma: ",",
        fails: false,
        room: 241,
        status: 4,
        written: r#"report 1
node n0 handed - applied 1
view n0 {"aliases":{},"indices":{},"settings":{}}
state {"cluster":"demo","id":1,"master":"n0","metadata":{"created":0,"indices":{},"settings":{},"version":1},"nodes":{"n0":{"eligible":true}},"term":1,"ver"#,
    },
    // other words are no command
    Row {
        words: "",
        blanks: 0,
        script: ["@[]}", "", ""],
        pieces: [("", 0), ("", 0)],
        comma: ",",
        fails: false,
        room: 1_000_000,
        status: 1,
        written: "",
    },
    Row {
        words: "serve",
        blanks: 0,
        script: ["@[]}", "", ""],
        pieces: [("", 0), ("", 0)],
        comma: ",",
        fails: false,
        room: 1_000_000,
        status: 1,
        written: "",
    },
    Row {
        words: "load 0",
        blanks: 0,
        script: ["@[]}", "", ""],
        pieces: [("", 0), ("", 0)],
        comma: ",",
        fails: false,
        room: 1_000_000,
        status: 1,
        written: "",
    },
    Row {
        words: "replay now",
        blanks: 0,
        script: ["@[]}", "", ""],
        pieces: [("", 0), ("", 0)],
        comma: ",",
        fails: false,
        room: 1_000_000,
        status: 1,
        written: "",
    },
    Row {
        words: "--help",
        blanks: 0,
        script: ["@[]}", "", ""],
        pieces: [("", 0), ("", 0)],
        comma: ",",
        fails: false,
        room: 1_000_000,
        status: 1,
        written: "",
    },
];
