use crate::command_rows::Row;

// Scripts of several clients, with a schedule, or in which time passes. Each worked out by hand.
pub(crate) const TURNS: [Row; 19] = [
    // what three clients submit in one round is one batch
    Row {
        words: "replay",
        blanks: 0,
        script: [
            r#"@[[{"do":"submit","queue":"make","task":{"index":"a"}}],[{"do":"submit","queue":"make","task":{"index":"b"}}],[{"do":"submit","queue":"make","task":{"index":"c"}}]]}"#,
            "",
            "",
        ],
        pieces: [("", 0), ("", 0)],
        comma: ",",
        fails: false,
        room: 1_000_000,
        status: 0,
        written: r#"report 1
batch 1 queue make at 0 tasks 0.0/0,1.0/0,2.0/0 published 2 id 2 commit 0 diffs 1 fulls 0 accepted 1
task 0.0 at 0 ok 2
task 1.0 at 0 ok 2
task 2.0 at 0 ok 2
node n0 handed 2 applied 1,2
apply n0 1>2 high 1 normal 1 low 1 listeners 2 created a,b,c deleted - changed - joined - left - settings -
view n0 {"aliases":{},"indices":{"a":1,"b":2,"c":3},"settings":{}}
state {"cluster":"demo","id":2,"master":"n0","metadata":{"created":3,"indices":{"a":{"aliases":[],"aliases_version":1,"id":1,"open":true,"replicas":1,"settings_version":1,"shards":1,"version":1},"b":{"aliases":[],"aliases_version":1,"id":2,"open":true,"replicas":1,"settings_version":1,"shards":1,"version":1},"c":{"aliases":[],"aliases_version":1,"id":3,"open":true,"replicas":1,"settings_version":1,"shards":1,"version":1}},"settings":{},"version":2},"nodes":{"n0":{"eligible":true}},"term":1,"version":2}
"#,
    },
    // the second task of a batch works on what the first one left
    Row {
        words: "replay",
        blanks: 0,
        script: [
            r#"@[[{"do":"submit","queue":"make","task":{"index":"a"}},{"do":"submit","queue":"make","task":{"index":"a"}}]],"schedule":["c0","c0","m"]}"#,
            "",
            "",
        ],
        pieces: [("", 0), ("", 0)],
        comma: ",",
        fails: false,
        room: 1_000_000,
        status: 0,
        written: r#"report 1
batch 1 queue make at 0 tasks 0.0/0,0.1/0 published 2 id 2 commit 0 diffs 1 fulls 0 accepted 1
task 0.0 at 0 ok 2
task 0.1 at 0 refused exists
node n0 handed 2 applied 1,2
apply n0 1>2 high 1 normal 1 low 1 listeners 2 created a deleted - changed - joined - left - settings -
view n0 {"aliases":{},"indices":{"a":1},"settings":{}}
state {"cluster":"demo","id":2,"master":"n0","metadata":{"created":1,"indices":{"a":{"aliases":[],"aliases_version":1,"id":1,"open":true,"replicas":1,"settings_version":1,"shards":1,"version":1}},"settings":{},"version":2},"nodes":{"n0":{"eligible":true}},"term":1,"version":2}
"#,
    },
    // a setting that is set and removed in one batch is unchanged
    Row {
        words: "replay",
        blanks: 0,
        script: [
            r#"@[[{"do":"submit","queue":"glob","task":{"key":"k","value":"v"}},{"do":"submit","queue":"glob","task":{"key":"k","value":null}}]],"schedule":["c0","c0","m"]}"#,
            "",
            "",
        ],
        pieces: [("", 0), ("", 0)],
        comma: ",",
        fails: false,
        room: 1_000_000,
        status: 0,
        written: r#"report 1
batch 1 queue glob at 0 tasks 0.0/0,0.1/0 unchanged 1
task 0.0 at 0 unchanged 1
task 0.1 at 0 unchanged 1
node n0 handed - applied 1
view n0 {"aliases":{},"indices":{},"settings":{}}
state {"cluster":"demo","id":1,"master":"n0","metadata":{"created":0,"indices":{},"settings":{},"version":1},"nodes":{"n0":{"eligible":true}},"term":1,"version":1}
"#,
    },
    // aliases of an atomic batch fail together, at the place of the refused one
    Row {
        words: "replay",
        blanks: 0,
        script: [
            r#"@[[{"do":"submit","queue":"make","task":{"index":"a"}},{"do":"submit","queue":"atom","task":{"index":"a","alias":"x","action":"add"}},{"do":"submit","queue":"atom","task":{"index":"b","alias":"y","action":"add"}}]],"schedule":["c0","m","c0","c0","m"]}"#,
            "",
            "",
        ],
        pieces: [("", 0), ("", 0)],
        comma: ",",
        fails: false,
        room: 1_000_000,
        status: 0,
        written: r#"report 1
batch 1 queue make at 0 tasks 0.0/0 published 2 id 2 commit 0 diffs 1 fulls 0 accepted 1
batch 2 queue atom at 0 tasks 0.1/0,0.2/0 batch_failed 1 not_found
task 0.0 at 0 ok 2
task 0.1 at 0 batch_failed 1 not_found
task 0.2 at 0 batch_failed 1 not_found
node n0 handed 2 applied 1,2
apply n0 1>2 high 1 normal 1 low 1 listeners 2 created a deleted - changed - joined - left - settings -
view n0 {"aliases":{},"indices":{"a":1},"settings":{}}
state {"cluster":"demo","id":2,"master":"n0","metadata":{"created":1,"indices":{"a":{"aliases":[],"aliases_version":1,"id":1,"open":true,"replicas":1,"settings_version":1,"shards":1,"version":1}},"settings":{},"version":2},"nodes":{"n0":{"eligible":true}},"term":1,"version":2}
"#,
    },
    // queues are served by priority, the immediate one first and the languid one last
    Row {
        words: "replay",
        blanks: 0,
        script: [
            r#"@[[{"do":"submit","queue":"slow","task":{"key":"a","value":"1"}},{"do":"submit","queue":"fast","task":{"key":"b","value":"1"}},{"do":"submit","queue":"make","task":{"index":"i"}},{"do":"submit","queue":"glob","task":{"key":"c","value":"1"}}]],"schedule":["c0","c0","c0","c0"]}"#,
            "",
            "",
        ],
        pieces: [("", 0), ("", 0)],
        comma: ",",
        fails: false,
        room: 1_000_000,
        status: 0,
        written: r#"report 1
batch 1 queue fast at 0 tasks 0.1/0 published 2 id 2 commit 0 diffs 1 fulls 0 accepted 1
batch 2 queue make at 0 tasks 0.2/0 published 3 id 3 commit 0 diffs 1 fulls 0 accepted 1
batch 3 queue glob at 0 tasks 0.3/0 published 4 id 4 commit 0 diffs 1 fulls 0 accepted 1
batch 4 queue slow at 0 tasks 0.0/0 published 5 id 5 commit 0 diffs 1 fulls 0 accepted 1
task 0.0 at 0 ok 5
task 0.1 at 0 ok 2
task 0.2 at 0 ok 3
task 0.3 at 0 ok 4
node n0 handed 2,3,4,5 applied 1,2,3,4,5
apply n0 1>2 high 1 normal 1 low 1 listeners 2 created - deleted - changed - joined - left - settings b
apply n0 2>3 high 2 normal 2 low 2 listeners 3 created i deleted - changed - joined - left - settings -
apply n0 3>4 high 3 normal 3 low 3 listeners 4 created - deleted - changed - joined - left - settings c
apply n0 4>5 high 4 normal 4 low 4 listeners 5 created - deleted - changed - joined - left - settings a
view n0 {"aliases":{},"indices":{"i":1},"settings":{"a":"1","b":"1","c":"1"}}
state {"cluster":"demo","id":5,"master":"n0","metadata":{"created":1,"indices":{"i":{"aliases":[],"aliases_version":1,"id":1,"open":true,"replicas":1,"settings_version":1,"shards":1,"version":1}},"settings":{"a":"1","b":"1","c":"1"},"version":5},"nodes":{"n0":{"eligible":true}},"term":1,"version":5}
"#,
    },
    Row {
        words: "replay",
        blanks: 0,
        script: [
            r#"{"version":1,"cluster":"demo","nodes":[{"name":"n0"}],"queues":[{"name":"f","executor":"cluster_settings","priority":"LANGUID"},{"name":"e","executor":"cluster_settings","priority":"LOW"},{"name":"d","executor":"cluster_settings"},{"name":"c","executor":"cluster_settings","priority":"HIGH"},{"name":"b","executor":"cluster_settings","priority":"URGENT"},{"name":"a","executor":"cluster_settings","priority":"IMMEDIATE"}],"clients":[[{"do":"submit","queue":"f","task":{"key":"k","value":"f"}},{"do":"submit","queue":"e","task":{"key":"k","value":"e"}},{"do":"submit","queue":"d","task":{"key":"k","value":"d"}},{"do":"submit","queue":"c","task":{"key":"k","value":"c"}},{"do":"submit","queue":"b","task":{"key":"k","value":"b"}},{"do":"submit","queue":"a","task":{"key":"k","value":"a"}}]],"schedule":["c0","c0","c0","c0","c0","c0"]}"#,
            "",
            "",
        ],
        pieces: [("", 0), ("", 0)],
        comma: ",",
        fails: false,
        room: 1_000_000,
        status: 0,
        written: r#"report 1
batch 1 queue a at 0 tasks 0.5/0 published 2 id 2 commit 0 diffs 1 fulls 0 accepted 1
batch 2 queue b at 0 tasks 0.4/0 published 3 id 3 commit 0 diffs 1 fulls 0 accepted 1
batch 3 queue c at 0 tasks 0.3/0 published 4 id 4 commit 0 diffs 1 fulls 0 accepted 1
batch 4 queue d at 0 tasks 0.2/0 published 5 id 5 commit 0 diffs 1 fulls 0 accepted 1
batch 5 queue e at 0 tasks 0.1/0 published 6 id 6 commit 0 diffs 1 fulls 0 accepted 1
batch 6 queue f at 0 tasks 0.0/0 published 7 id 7 commit 0 diffs 1 fulls 0 accepted 1
task 0.0 at 0 ok 7
task 0.1 at 0 ok 6
task 0.2 at 0 ok 5
task 0.3 at 0 ok 4
task 0.4 at 0 ok 3
task 0.5 at 0 ok 2
node n0 handed 2,3,4,5,6,7 applied 1,2,3,4,5,6,7
apply n0 1>2 high 1 normal 1 low 1 listeners 2 created - deleted - changed - joined - left - settings k
apply n0 2>3 high 2 normal 2 low 2 listeners 3 created - deleted - changed - joined - left - settings k
apply n0 3>4 high 3 normal 3 low 3 listeners 4 created - deleted - changed - joined - left - settings k
apply n0 4>5 high 4 normal 4 low 4 listeners 5 created - deleted - changed - joined - left - settings k
apply n0 5>6 high 5 normal 5 low 5 listeners 6 created - deleted - changed - joined - left - settings k
apply n0 6>7 high 6 normal 6 low 6 listeners 7 created - deleted - changed - joined - left - settings k
view n0 {"aliases":{},"indices":{},"settings":{"k":"f"}}
state {"cluster":"demo","id":7,"master":"n0","metadata":{"created":0,"indices":{},"settings":{"k":"f"},"version":7},"nodes":{"n0":{"eligible":true}},"term":1,"version":7}
"#,
    },
    // of equal priorities the queue with the earliest entry comes first, with all that waits in it
    Row {
        words: "replay",
        blanks: 0,
        script: [
            r#"@[[{"do":"submit","queue":"glob","task":{"key":"k","value":"1"}},{"do":"submit","queue":"make","task":{"index":"a"}},{"do":"submit","queue":"glob","task":{"key":"k","value":"2"}}]],"schedule":["c0","c0","c0"]}"#,
            "",
            "",
        ],
        pieces: [("", 0), ("", 0)],
        comma: ",",
        fails: false,
        room: 1_000_000,
        status: 0,
        written: r#"report 1
batch 1 queue glob at 0 tasks 0.0/0,0.2/0 published 2 id 2 commit 0 diffs 1 fulls 0 accepted 1
batch 2 queue make at 0 tasks 0.1/0 published 3 id 3 commit 0 diffs 1 fulls 0 accepted 1
task 0.0 at 0 ok 2
task 0.1 at 0 ok 3
task 0.2 at 0 ok 2
node n0 handed 2,3 applied 1,2,3
apply n0 1>2 high 1 normal 1 low 1 listeners 2 created - deleted - changed - joined - left - settings k
apply n0 2>3 high 2 normal 2 low 2 listeners 3 created a deleted - changed - joined - left - settings -
view n0 {"aliases":{},"indices":{"a":1},"settings":{"k":"2"}}
state {"cluster":"demo","id":3,"master":"n0","metadata":{"created":1,"indices":{"a":{"aliases":[],"aliases_version":1,"id":1,"open":true,"replicas":1,"settings_version":1,"shards":1,"version":1}},"settings":{"k":"2"},"version":3},"nodes":{"n0":{"eligible":true}},"term":1,"version":3}
"#,
    },
    // a queue that was served stands behind the others with its next entry
    Row {
        words: "replay",
        blanks: 0,
        script: [
            r#"@[[{"do":"submit","queue":"make","task":{"index":"a"}},{"do":"submit","queue":"glob","task":{"key":"k","value":"1"}},{"do":"submit","queue":"make","task":{"index":"b"}}]],"schedule":["c0","c0","m","c0","m"]}"#,
            "",
            "",
        ],
        pieces: [("", 0), ("", 0)],
        comma: ",",
        fails: false,
        room: 1_000_000,
        status: 0,
        written: r#"report 1
batch 1 queue make at 0 tasks 0.0/0 published 2 id 2 commit 0 diffs 1 fulls 0 accepted 1
batch 2 queue glob at 0 tasks 0.1/0 published 3 id 3 commit 0 diffs 1 fulls 0 accepted 1
batch 3 queue make at 0 tasks 0.2/0 published 4 id 4 commit 0 diffs 1 fulls 0 accepted 1
task 0.0 at 0 ok 2
task 0.1 at 0 ok 3
task 0.2 at 0 ok 4
node n0 handed 2,3,4 applied 1,2,3,4
apply n0 1>2 high 1 normal 1 low 1 listeners 2 created a deleted - changed - joined - left - settings -
apply n0 2>3 high 2 normal 2 low 2 listeners 3 created - deleted - changed - joined - left - settings k
apply n0 3>4 high 3 normal 3 low 3 listeners 4 created b deleted - changed - joined - left - settings -
view n0 {"aliases":{},"indices":{"a":1,"b":2},"settings":{"k":"1"}}
state {"cluster":"demo","id":4,"master":"n0","metadata":{"created":2,"indices":{"a":{"aliases":[],"aliases_version":1,"id":1,"open":true,"replicas":1,"settings_version":1,"shards":1,"version":1},"b":{"aliases":[],"aliases_version":1,"id":2,"open":true,"replicas":1,"settings_version":1,"shards":1,"version":1}},"settings":{"k":"1"},"version":4},"nodes":{"n0":{"eligible":true}},"term":1,"version":4}
"#,
    },
    // a task times out at its deadline, and one that its batch took before does not
    Row {
        words: "replay",
        blanks: 0,
        script: [
            r#"@[[{"do":"submit","queue":"make","task":{"index":"a"},"timeout":5},{"do":"sleep","ms":5}]],"schedule":["c0","c0","m"]}"#,
            "",
            "",
        ],
        pieces: [("", 0), ("", 0)],
        comma: ",",
        fails: false,
        room: 1_000_000,
        status: 0,
        written: r#"report 1
task 0.0 at 0 timeout 5 5
node n0 handed - applied 1
view n0 {"aliases":{},"indices":{},"settings":{}}
state {"cluster":"demo","id":1,"master":"n0","metadata":{"created":0,"indices":{},"settings":{},"version":1},"nodes":{"n0":{"eligible":true}},"term":1,"version":1}
"#,
    },
    Row {
        words: "replay",
        blanks: 0,
        script: [
            r#"@[[{"do":"submit","queue":"make","task":{"index":"a"},"timeout":5},{"do":"sleep","ms":5}]],"schedule":["c0","m","c0"]}"#,
            "",
            "",
        ],
        pieces: [("", 0), ("", 0)],
        comma: ",",
        fails: false,
        room: 1_000_000,
        status: 0,
        written: r#"report 1
batch 1 queue make at 0 tasks 0.0/0 published 2 id 2 commit 0 diffs 1 fulls 0 accepted 1
task 0.0 at 0 ok 2
node n0 handed 2 applied 1,2
apply n0 1>2 high 1 normal 1 low 1 listeners 2 created a deleted - changed - joined - left - settings -
view n0 {"aliases":{},"indices":{"a":1},"settings":{}}
state {"cluster":"demo","id":2,"master":"n0","metadata":{"created":1,"indices":{"a":{"aliases":[],"aliases_version":1,"id":1,"open":true,"replicas":1,"settings_version":1,"shards":1,"version":1}},"settings":{},"version":2},"nodes":{"n0":{"eligible":true}},"term":1,"version":2}
"#,
    },
    // one client sleeps and the other's task times out, but not before its deadline
    Row {
        words: "replay",
        blanks: 0,
        script: [
            r#"@[[{"do":"submit","queue":"make","task":{"index":"a"},"timeout":5},{"do":"submit","queue":"make","task":{"index":"b"},"timeout":5}],[{"do":"sleep","ms":4},{"do":"sleep","ms":6}]]}"#,
            "",
            "",
        ],
        pieces: [("", 0), ("", 0)],
        comma: ",",
        fails: false,
        room: 1_000_000,
        status: 0,
        written: r#"report 1
batch 1 queue make at 4 tasks 0.0/0 published 2 id 2 commit 4 diffs 1 fulls 0 accepted 1
task 0.0 at 0 ok 2
task 0.1 at 4 timeout 9 10
node n0 handed 2 applied 1,2
apply n0 1>2 high 1 normal 1 low 1 listeners 2 created a deleted - changed - joined - left - settings -
view n0 {"aliases":{},"indices":{"a":1},"settings":{}}
state {"cluster":"demo","id":2,"master":"n0","metadata":{"created":1,"indices":{"a":{"aliases":[],"aliases_version":1,"id":1,"open":true,"replicas":1,"settings_version":1,"shards":1,"version":1}},"settings":{},"version":2},"nodes":{"n0":{"eligible":true}},"term":1,"version":2}
"#,
    },
    // a timed-out entry wins the choice of the queue: that turn makes no batch, and what is submitted after it is still in
    // time for the next one
    Row {
        words: "replay",
        blanks: 0,
        script: [
            r#"@[[{"do":"submit","queue":"fast","task":{"key":"k","value":"1"},"timeout":5},{"do":"submit","queue":"make","task":{"index":"a"}},{"do":"sleep","ms":5},{"do":"submit","queue":"make","task":{"index":"b"}}]],"schedule":["c0","c0","c0","m","c0","m"]}"#,
            "",
            "",
        ],
        pieces: [("", 0), ("", 0)],
        comma: ",",
        fails: false,
        room: 1_000_000,
        status: 0,
        written: r#"report 1
batch 1 queue make at 5 tasks 0.1/0,0.3/0 published 2 id 2 commit 5 diffs 1 fulls 0 accepted 1
task 0.0 at 0 timeout 5 5
task 0.1 at 0 ok 2
task 0.3 at 5 ok 2
node n0 handed 2 applied 1,2
apply n0 1>2 high 1 normal 1 low 1 listeners 2 created a,b deleted - changed - joined - left - settings -
view n0 {"aliases":{},"indices":{"a":1,"b":2},"settings":{}}
state {"cluster":"demo","id":2,"master":"n0","metadata":{"created":2,"indices":{"a":{"aliases":[],"aliases_version":1,"id":1,"open":true,"replicas":1,"settings_version":1,"shards":1,"version":1},"b":{"aliases":[],"aliases_version":1,"id":2,"open":true,"replicas":1,"settings_version":1,"shards":1,"version":1}},"settings":{},"version":2},"nodes":{"n0":{"eligible":true}},"term":1,"version":2}
"#,
    },
    // a timed-out entry keeps its queue's place
    Row {
        words: "replay",
        blanks: 0,
        script: [
            r#"@[[{"do":"submit","queue":"glob","task":{"key":"k","value":"1"},"timeout":1},{"do":"submit","queue":"make","task":{"index":"a"}},{"do":"submit","queue":"glob","task":{"key":"j","value":"1"}},{"do":"sleep","ms":1}]],"schedule":["c0","c0","c0","c0"]}"#,
            "",
            "",
        ],
        pieces: [("", 0), ("", 0)],
        comma: ",",
        fails: false,
        room: 1_000_000,
        status: 0,
        written: r#"report 1
batch 1 queue glob at 1 tasks 0.2/0 published 2 id 2 commit 1 diffs 1 fulls 0 accepted 1
batch 2 queue make at 1 tasks 0.1/0 published 3 id 3 commit 1 diffs 1 fulls 0 accepted 1
task 0.0 at 0 timeout 1 1
task 0.1 at 0 ok 3
task 0.2 at 0 ok 2
node n0 handed 2,3 applied 1,2,3
apply n0 1>2 high 1 normal 1 low 1 listeners 2 created - deleted - changed - joined - left - settings j
apply n0 2>3 high 2 normal 2 low 2 listeners 3 created a deleted - changed - joined - left - settings -
view n0 {"aliases":{},"indices":{"a":1},"settings":{"j":"1"}}
state {"cluster":"demo","id":3,"master":"n0","metadata":{"created":1,"indices":{"a":{"aliases":[],"aliases_version":1,"id":1,"open":true,"replicas":1,"settings_version":1,"shards":1,"version":1}},"settings":{"j":"1"},"version":3},"nodes":{"n0":{"eligible":true}},"term":1,"version":3}
"#,
    },
    // a timed-out entry is none of its batch, and has no place in it
    Row {
        words: "replay",
        blanks: 0,
        script: [
            r#"@[[{"do":"submit","queue":"make","task":{"index":"a"}},{"do":"submit","queue":"atom","task":{"index":"a","alias":"x","action":"add"},"timeout":2},{"do":"submit","queue":"atom","task":{"index":"a","alias":"y","action":"add"},"timeout":3},{"do":"submit","queue":"atom","task":{"index":"b","alias":"z","action":"add"}},{"do":"sleep","ms":2}]],"schedule":["c0","m","c0","c0","c0","c0","m"]}"#,
            "",
            "",
        ],
        pieces: [("", 0), ("", 0)],
        comma: ",",
        fails: false,
        room: 1_000_000,
        status: 0,
        written: r#"report 1
batch 1 queue make at 0 tasks 0.0/0 published 2 id 2 commit 0 diffs 1 fulls 0 accepted 1
batch 2 queue atom at 2 tasks 0.2/0,0.3/0 batch_failed 1 not_found
task 0.0 at 0 ok 2
task 0.1 at 0 timeout 2 2
task 0.2 at 0 batch_failed 1 not_found
task 0.3 at 0 batch_failed 1 not_found
node n0 handed 2 applied 1,2
apply n0 1>2 high 1 normal 1 low 1 listeners 2 created a deleted - changed - joined - left - settings -
view n0 {"aliases":{},"indices":{"a":1},"settings":{}}
state {"cluster":"demo","id":2,"master":"n0","metadata":{"created":1,"indices":{"a":{"aliases":[],"aliases_version":1,"id":1,"open":true,"replicas":1,"settings_version":1,"shards":1,"version":1}},"settings":{},"version":2},"nodes":{"n0":{"eligible":true}},"term":1,"version":2}
"#,
    },
    // the end of a task that timed out can be awaited, and is of no batch
    Row {
        words: "replay",
        blanks: 0,
        script: [
            r#"@[[{"do":"submit","queue":"make","task":{"index":"a"},"timeout":5},{"do":"sleep","ms":5},{"do":"await","step":0,"for":"task"},{"do":"submit","queue":"make","task":{"index":"b"}}]],"schedule":["c0","c0","c0","c0","m"]}"#,
            "",
            "",
        ],
        pieces: [("", 0), ("", 0)],
        comma: ",",
        fails: false,
        room: 1_000_000,
        status: 0,
        written: r#"report 1
batch 1 queue make at 5 tasks 0.3/0 published 2 id 2 commit 5 diffs 1 fulls 0 accepted 1
task 0.0 at 0 timeout 5 5
task 0.3 at 5 ok 2
node n0 handed 2 applied 1,2
apply n0 1>2 high 1 normal 1 low 1 listeners 2 created b deleted - changed - joined - left - settings -
view n0 {"aliases":{},"indices":{"b":1},"settings":{}}
state {"cluster":"demo","id":2,"master":"n0","metadata":{"created":1,"indices":{"b":{"aliases":[],"aliases_version":1,"id":1,"open":true,"replicas":1,"settings_version":1,"shards":1,"version":1}},"settings":{},"version":2},"nodes":{"n0":{"eligible":true}},"term":1,"version":2}
"#,
    },
    // the greatest batch that the client itself awaited counts
    Row {
        words: "replay",
        blanks: 0,
        script: [
            r#"@[[{"do":"submit","queue":"make","task":{"index":"a"}},{"do":"submit","queue":"fast","task":{"key":"k","value":"1"}},{"do":"await","step":0,"for":"task"},{"do":"await","step":1,"for":"task"},{"do":"submit","queue":"make","task":{"index":"b"}}],[{"do":"submit","queue":"make","task":{"index":"c"}}]],"schedule":["c0","c0","m","m"]}"#,
            "",
            "",
        ],
        pieces: [("", 0), ("", 0)],
        comma: ",",
        fails: false,
        room: 1_000_000,
        status: 0,
        written: r#"report 1
batch 1 queue fast at 0 tasks 0.1/0 published 2 id 2 commit 0 diffs 1 fulls 0 accepted 1
batch 2 queue make at 0 tasks 0.0/0 published 3 id 3 commit 0 diffs 1 fulls 0 accepted 1
batch 3 queue make at 0 tasks 1.0/0 published 4 id 4 commit 0 diffs 1 fulls 0 accepted 1
batch 4 queue make at 0 tasks 0.4/2 published 5 id 5 commit 0 diffs 1 fulls 0 accepted 1
task 0.0 at 0 ok 3
task 0.1 at 0 ok 2
task 0.4 at 0 ok 5
task 1.0 at 0 ok 4
node n0 handed 2,3,4,5 applied 1,2,3,4,5
apply n0 1>2 high 1 normal 1 low 1 listeners 2 created - deleted - changed - joined - left - settings k
apply n0 2>3 high 2 normal 2 low 2 listeners 3 created a deleted - changed - joined - left - settings -
apply n0 3>4 high 3 normal 3 low 3 listeners 4 created c deleted - changed - joined - left - settings -
apply n0 4>5 high 4 normal 4 low 4 listeners 5 created b deleted - changed - joined - left - settings -
view n0 {"aliases":{},"indices":{"a":1,"b":3,"c":2},"settings":{"k":"1"}}
state {"cluster":"demo","id":5,"master":"n0","metadata":{"created":3,"indices":{"a":{"aliases":[],"aliases_version":1,"id":1,"open":true,"replicas":1,"settings_version":1,"shards":1,"version":1},"b":{"aliases":[],"aliases_version":1,"id":3,"open":true,"replicas":1,"settings_version":1,"shards":1,"version":1},"c":{"aliases":[],"aliases_version":1,"id":2,"open":true,"replicas":1,"settings_version":1,"shards":1,"version":1}},"settings":{"k":"1"},"version":5},"nodes":{"n0":{"eligible":true}},"term":1,"version":5}
"#,
    },
    // turns that do nothing: of a client whose task has not ended, of a client at its end, of a master for whom nothing
    // waits, and of a node
    Row {
        words: "replay",
        blanks: 0,
        script: [
            r#"@[[{"do":"submit","queue":"make","task":{"index":"a"}},{"do":"await","step":0,"for":"task"},{"do":"submit","queue":"make","task":{"index":"b"}}]],"schedule":["c0","c0","c0","m"]}"#,
            "",
            "",
        ],
        pieces: [("", 0), ("", 0)],
        comma: ",",
        fails: false,
        room: 1_000_000,
        status: 0,
        written: r#"report 1
batch 1 queue make at 0 tasks 0.0/0 published 2 id 2 commit 0 diffs 1 fulls 0 accepted 1
batch 2 queue make at 0 tasks 0.2/1 published 3 id 3 commit 0 diffs 1 fulls 0 accepted 1
task 0.0 at 0 ok 2
task 0.2 at 0 ok 3
node n0 handed 2,3 applied 1,2,3
apply n0 1>2 high 1 normal 1 low 1 listeners 2 created a deleted - changed - joined - left - settings -
apply n0 2>3 high 2 normal 2 low 2 listeners 3 created b deleted - changed - joined - left - settings -
view n0 {"aliases":{},"indices":{"a":1,"b":2},"settings":{}}
state {"cluster":"demo","id":3,"master":"n0","metadata":{"created":2,"indices":{"a":{"aliases":[],"aliases_version":1,"id":1,"open":true,"replicas":1,"settings_version":1,"shards":1,"version":1},"b":{"aliases":[],"aliases_version":1,"id":2,"open":true,"replicas":1,"settings_version":1,"shards":1,"version":1}},"settings":{},"version":3},"nodes":{"n0":{"eligible":true}},"term":1,"version":3}
"#,
    },
    Row {
        words: "replay",
        blanks: 0,
        script: [
            r#"@[[{"do":"submit","queue":"make","task":{"index":"a"}}],[]],"schedule":["m","c1","c0","c0","m","m","c0"]}"#,
            "",
            "",
        ],
        pieces: [("", 0), ("", 0)],
        comma: ",",
        fails: false,
        room: 1_000_000,
        status: 0,
        written: r#"report 1
batch 1 queue make at 0 tasks 0.0/0 published 2 id 2 commit 0 diffs 1 fulls 0 accepted 1
task 0.0 at 0 ok 2
node n0 handed 2 applied 1,2
apply n0 1>2 high 1 normal 1 low 1 listeners 2 created a deleted - changed - joined - left - settings -
view n0 {"aliases":{},"indices":{"a":1},"settings":{}}
state {"cluster":"demo","id":2,"master":"n0","metadata":{"created":1,"indices":{"a":{"aliases":[],"aliases_version":1,"id":1,"open":true,"replicas":1,"settings_version":1,"shards":1,"version":1}},"settings":{},"version":2},"nodes":{"n0":{"eligible":true}},"term":1,"version":2}
"#,
    },
    Row {
        words: "replay",
        blanks: 0,
        script: [
            r#"{"version":1,"cluster":"demo","nodes":[{"name":"n0"},{"name":"n1"}],"queues":[{"name":"make","executor":"create_index"}],"clients":[[{"do":"submit","queue":"make","task":{"index":"a"}},{"do":"submit","queue":"make","task":{"index":"b"}}]],"schedule":["n:n0","c0","n:n1","c0","n:n0","m","n:n1","n:n0"]}"#,
            "",
            "",
        ],
        pieces: [("", 0), ("", 0)],
        comma: ",",
        fails: false,
        room: 1_000_000,
        status: 0,
        written: r#"report 1
batch 1 queue make at 0 tasks 0.0/0,0.1/0 published 2 id 2 commit 0 diffs 2 fulls 0 accepted 2
task 0.0 at 0 ok 2
task 0.1 at 0 ok 2
node n0 handed 2 applied 1,2
apply n0 1>2 high 1 normal 1 low 1 listeners 2 created a,b deleted - changed - joined - left - settings -
view n0 {"aliases":{},"indices":{"a":1,"b":2},"settings":{}}
node n1 handed 2 applied 1,2
apply n1 1>2 high 1 normal 1 low 1 listeners 2 created a,b deleted - changed - joined - left - settings -
view n1 {"aliases":{},"indices":{"a":1,"b":2},"settings":{}}
state {"cluster":"demo","id":2,"master":"n0","metadata":{"created":2,"indices":{"a":{"aliases":[],"aliases_version":1,"id":1,"open":true,"replicas":1,"settings_version":1,"shards":1,"version":1},"b":{"aliases":[],"aliases_version":1,"id":2,"open":true,"replicas":1,"settings_version":1,"shards":1,"version":1}},"settings":{},"version":2},"nodes":{"n0":{"eligible":true},"n1":{"eligible":true}},"term":1,"version":2}
"#,
    },
];
