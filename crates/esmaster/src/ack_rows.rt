use crate::command_rows::Row;

// Scripts with acknowledgements. Each worked out by hand.
pub(crate) const ACKS: [Row; 8] = [
    // the acknowledgement of a task that changed nothing is full at once
    Row {
        words: "replay",
        blanks: 0,
        script: [
            r#"@[[{"do":"submit","queue":"make","task":{"index":"a"}},{"do":"await","step":0,"for":"task"},{"do":"submit","queue":"conf","task":{"index":"a","key":"index.number_of_replicas","value":1},"ack":{"nodes":"all"}}]]}"#,
            "",
            "",
        ],
        pieces: [("", 0), ("", 0)],
        comma: ",",
        fails: false,
        room: 1_000_000,
        status: 0,
        written: r#"report 1
batch 1 queue make at 0 tasks 0.0/0 published 2 id 2 commit 0 diffs 1 fulls 0 accepted 1
batch 2 queue conf at 0 tasks 0.2/1 unchanged 2
task 0.0 at 0 ok 2
task 0.2 at 0 unchanged 2
ack 0.2 all
node n0 handed 2 applied 1,2
apply n0 1>2 high 1 normal 1 low 1 listeners 2 created a deleted - changed - joined - left - settings -
view n0 {"aliases":{},"indices":{"a":1},"settings":{}}
state {"cluster":"demo","id":2,"master":"n0","metadata":{"created":1,"indices":{"a":{"aliases":[],"aliases_version":1,"id":1,"open":true,"replicas":1,"settings_version":1,"shards":1,"version":1}},"settings":{},"version":2},"nodes":{"n0":{"eligible":true}},"term":1,"version":2}
"#,
    },
    // one with no time left at the commit times out there
    Row {
        words: "replay",
        blanks: 0,
        script: [
            r#"@[[{"do":"submit","queue":"make","task":{"index":"logs-1"},"ack":{"nodes":"all","timeout":0}}]]}"#,
            "",
            "",
        ],
        pieces: [("", 0), ("", 0)],
        comma: ",",
        fails: false,
        room: 1_000_000,
        status: 0,
        written: r#"report 1
batch 1 queue make at 0 tasks 0.0/0 published 2 id 2 commit 0 diffs 1 fulls 0 accepted 1
task 0.0 at 0 ok 2
ack 0.0 timeout 0 0
node n0 handed 2 applied 1,2
apply n0 1>2 high 1 normal 1 low 1 listeners 2 created logs-1 deleted - changed - joined - left - settings -
view n0 {"aliases":{},"indices":{"logs-1":1},"settings":{}}
state {"cluster":"demo","id":2,"master":"n0","metadata":{"created":1,"indices":{"logs-1":{"aliases":[],"aliases_version":1,"id":1,"open":true,"replicas":1,"settings_version":1,"shards":1,"version":1}},"settings":{},"version":2},"nodes":{"n0":{"eligible":true}},"term":1,"version":2}
"#,
    },
    // an await for one lasts until each node has applied the version
    Row {
        words: "replay",
        blanks: 0,
        script: [
            r#"{"version":1,"cluster":"demo","nodes":[{"name":"n0"},{"name":"n1"},{"name":"n2"}],"queues":[{"name":"q","executor":"create_index"}],"clients":[[{"do":"submit","queue":"q","task":{"index":"a"},"ack":{"nodes":"all","timeout":100}},{"do":"await","step":0,"for":"ack"},{"do":"submit","queue":"q","task":{"index":"b"}}]]}"#,
            "",
            "",
        ],
        pieces: [("", 0), ("", 0)],
        comma: ",",
        fails: false,
        room: 1_000_000,
        status: 0,
        written: r#"report 1
batch 1 queue q at 0 tasks 0.0/0 published 2 id 2 commit 0 diffs 3 fulls 0 accepted 3
batch 2 queue q at 0 tasks 0.2/1 published 3 id 3 commit 0 diffs 3 fulls 0 accepted 3
task 0.0 at 0 ok 2
task 0.2 at 0 ok 3
ack 0.0 all
node n0 handed 2,3 applied 1,2,3
apply n0 1>2 high 1 normal 1 low 1 listeners 2 created a deleted - changed - joined - left - settings -
apply n0 2>3 high 2 normal 2 low 2 listeners 3 created b deleted - changed - joined - left - settings -
view n0 {"aliases":{},"indices":{"a":1,"b":2},"settings":{}}
node n1 handed 2,3 applied 1,2,3
apply n1 1>2 high 1 normal 1 low 1 listeners 2 created a deleted - changed - joined - left - settings -
apply n1 2>3 high 2 normal 2 low 2 listeners 3 created b deleted - changed - joined - left - settings -
view n1 {"aliases":{},"indices":{"a":1,"b":2},"settings":{}}
node n2 handed 2,3 applied 1,2,3
apply n2 1>2 high 1 normal 1 low 1 listeners 2 created a deleted - changed - joined - left - settings -
apply n2 2>3 high 2 normal 2 low 2 listeners 3 created b deleted - changed - joined - left - settings -
view n2 {"aliases":{},"indices":{"a":1,"b":2},"settings":{}}
state {"cluster":"demo","id":3,"master":"n0","metadata":{"created":2,"indices":{"a":{"aliases":[],"aliases_version":1,"id":1,"open":true,"replicas":1,"settings_version":1,"shards":1,"version":1},"b":{"aliases":[],"aliases_version":1,"id":2,"open":true,"replicas":1,"settings_version":1,"shards":1,"version":1}},"settings":{},"version":3},"nodes":{"n0":{"eligible":true},"n1":{"eligible":true},"n2":{"eligible":true}},"term":1,"version":3}
"#,
    },
    // it isn't performed before that, however often its client has a turn
    Row {
        words: "replay",
        blanks: 0,
        script: [
            r#"{"version":1,"cluster":"demo","nodes":[{"name":"n0"},{"name":"n1"}],"queues":[{"name":"q","executor":"create_index"}],"clients":[[{"do":"submit","queue":"q","task":{"index":"a"},"ack":{"nodes":"all"}},{"do":"await","step":0,"for":"ack"},{"do":"submit","queue":"q","task":{"index":"b"}}],[{"do":"submit","queue":"q","task":{"index":"c"}}]],"schedule":["c0","m","c0","n:n0","c0","c0","c1","m"]}"#,
            "",
            "",
        ],
        pieces: [("", 0), ("", 0)],
        comma: ",",
        fails: false,
        room: 1_000_000,
        status: 0,
        written: r#"report 1
batch 1 queue q at 0 tasks 0.0/0 published 2 id 2 commit 0 diffs 2 fulls 0 accepted 2
batch 2 queue q at 0 tasks 1.0/0 published 3 id 3 commit 0 diffs 2 fulls 0 accepted 2
batch 3 queue q at 0 tasks 0.2/1 published 4 id 4 commit 0 diffs 2 fulls 0 accepted 2
task 0.0 at 0 ok 2
task 0.2 at 0 ok 4
task 1.0 at 0 ok 3
ack 0.0 all
node n0 handed 2,3,4 applied 1,2,3,4
apply n0 1>2 high 1 normal 1 low 1 listeners 2 created a deleted - changed - joined - left - settings -
apply n0 2>3 high 2 normal 2 low 2 listeners 3 created c deleted - changed - joined - left - settings -
apply n0 3>4 high 3 normal 3 low 3 listeners 4 created b deleted - changed - joined - left - settings -
view n0 {"aliases":{},"indices":{"a":1,"b":3,"c":2},"settings":{}}
node n1 handed 2,3,4 applied 1,2,3,4
apply n1 1>2 high 1 normal 1 low 1 listeners 2 created a deleted - changed - joined - left - settings -
apply n1 2>3 high 2 normal 2 low 2 listeners 3 created c deleted - changed - joined - left - settings -
apply n1 3>4 high 3 normal 3 low 3 listeners 4 created b deleted - changed - joined - left - settings -
view n1 {"aliases":{},"indices":{"a":1,"b":3,"c":2},"settings":{}}
state {"cluster":"demo","id":4,"master":"n0","metadata":{"created":3,"indices":{"a":{"aliases":[],"aliases_version":1,"id":1,"open":true,"replicas":1,"settings_version":1,"shards":1,"version":1},"b":{"aliases":[],"aliases_version":1,"id":3,"open":true,"replicas":1,"settings_version":1,"shards":1,"version":1},"c":{"aliases":[],"aliases_version":1,"id":2,"open":true,"replicas":1,"settings_version":1,"shards":1,"version":1}},"settings":{},"version":4},"nodes":{"n0":{"eligible":true},"n1":{"eligible":true}},"term":1,"version":4}
"#,
    },
    // one whose node hasn't applied the version times out with the clock, at its deadline
    Row {
        words: "replay",
        blanks: 0,
        script: [
            r#"{"version":1,"cluster":"demo","nodes":[{"name":"n0"},{"name":"n1"}],"queues":[{"name":"q","executor":"create_index"}],"clients":[[{"do":"submit","queue":"q","task":{"index":"a"},"ack":{"nodes":["n1"],"timeout":5}},{"do":"sleep","ms":7}]],"schedule":["c0","m","n:n0","c0"]}"#,
            "",
            "",
        ],
        pieces: [("", 0), ("", 0)],
        comma: ",",
        fails: false,
        room: 1_000_000,
        status: 0,
        written: r#"report 1
batch 1 queue q at 0 tasks 0.0/0 published 2 id 2 commit 0 diffs 2 fulls 0 accepted 2
task 0.0 at 0 ok 2
ack 0.0 timeout 5 7
node n0 handed 2 applied 1,2
apply n0 1>2 high 1 normal 1 low 1 listeners 2 created a deleted - changed - joined - left - settings -
view n0 {"aliases":{},"indices":{"a":1},"settings":{}}
node n1 handed 2 applied 1,2
apply n1 1>2 high 1 normal 1 low 1 listeners 2 created a deleted - changed - joined - left - settings -
view n1 {"aliases":{},"indices":{"a":1},"settings":{}}
state {"cluster":"demo","id":2,"master":"n0","metadata":{"created":1,"indices":{"a":{"aliases":[],"aliases_version":1,"id":1,"open":true,"replicas":1,"settings_version":1,"shards":1,"version":1}},"settings":{},"version":2},"nodes":{"n0":{"eligible":true},"n1":{"eligible":true}},"term":1,"version":2}
"#,
    },
    // where no node is asked the master alone is required
    Row {
        words: "replay",
        blanks: 0,
        script: [
            r#"{"version":1,"cluster":"demo","nodes":[{"name":"n0"},{"name":"n1"}],"queues":[{"name":"q","executor":"create_index"}],"clients":[[{"do":"submit","queue":"q","task":{"index":"a"},"ack":{"nodes":[],"timeout":5}},{"do":"sleep","ms":7}]],"schedule":["c0","m","n:n0","c0"]}"#,
            "",
            "",
        ],
        pieces: [("", 0), ("", 0)],
        comma: ",",
        fails: false,
        room: 1_000_000,
        status: 0,
        written: r#"report 1
batch 1 queue q at 0 tasks 0.0/0 published 2 id 2 commit 0 diffs 2 fulls 0 accepted 2
task 0.0 at 0 ok 2
ack 0.0 all
node n0 handed 2 applied 1,2
apply n0 1>2 high 1 normal 1 low 1 listeners 2 created a deleted - changed - joined - left - settings -
view n0 {"aliases":{},"indices":{"a":1},"settings":{}}
node n1 handed 2 applied 1,2
apply n1 1>2 high 1 normal 1 low 1 listeners 2 created a deleted - changed - joined - left - settings -
view n1 {"aliases":{},"indices":{"a":1},"settings":{}}
state {"cluster":"demo","id":2,"master":"n0","metadata":{"created":1,"indices":{"a":{"aliases":[],"aliases_version":1,"id":1,"open":true,"replicas":1,"settings_version":1,"shards":1,"version":1}},"settings":{},"version":2},"nodes":{"n0":{"eligible":true},"n1":{"eligible":true}},"term":1,"version":2}
"#,
    },
    // and it is required also where another node is asked
    Row {
        words: "replay",
        blanks: 0,
        script: [
            r#"{"version":1,"cluster":"demo","nodes":[{"name":"n0"},{"name":"n1"}],"queues":[{"name":"q","executor":"create_index"}],"clients":[[{"do":"submit","queue":"q","task":{"index":"a"},"ack":{"nodes":["n1"],"timeout":5}},{"do":"sleep","ms":7}]],"schedule":["c0","m","n:n1","c0"]}"#,
            "",
            "",
        ],
        pieces: [("", 0), ("", 0)],
        comma: ",",
        fails: false,
        room: 1_000_000,
        status: 0,
        written: r#"report 1
batch 1 queue q at 0 tasks 0.0/0 published 2 id 2 commit 0 diffs 2 fulls 0 accepted 2
task 0.0 at 0 ok 2
ack 0.0 timeout 5 7
node n0 handed 2 applied 1,2
apply n0 1>2 high 1 normal 1 low 1 listeners 2 created a deleted - changed - joined - left - settings -
view n0 {"aliases":{},"indices":{"a":1},"settings":{}}
node n1 handed 2 applied 1,2
apply n1 1>2 high 1 normal 1 low 1 listeners 2 created a deleted - changed - joined - left - settings -
view n1 {"aliases":{},"indices":{"a":1},"settings":{}}
state {"cluster":"demo","id":2,"master":"n0","metadata":{"created":1,"indices":{"a":{"aliases":[],"aliases_version":1,"id":1,"open":true,"replicas":1,"settings_version":1,"shards":1,"version":1}},"settings":{},"version":2},"nodes":{"n0":{"eligible":true},"n1":{"eligible":true}},"term":1,"version":2}
"#,
    },
    // a task that was refused has none, and an await for it is performed once the task has ended
    Row {
        words: "replay",
        blanks: 0,
        script: [
            r#"@[[{"do":"submit","queue":"make","task":{"index":"a"}},{"do":"submit","queue":"make","task":{"index":"a"},"ack":{"nodes":"all"}},{"do":"await","step":1,"for":"ack"},{"do":"submit","queue":"make","task":{"index":"b"}}]],"schedule":["c0","c0","c0","m"]}"#,
            "",
            "",
        ],
        pieces: [("", 0), ("", 0)],
        comma: ",",
        fails: false,
        room: 1_000_000,
        status: 0,
        written: r#"report 1
batch 1 queue make at 0 tasks 0.0/0,0.1/0 published 2 id 2 commit 0 diffs 1 fulls 0 accepted 1
batch 2 queue make at 0 tasks 0.3/1 published 3 id 3 commit 0 diffs 1 fulls 0 accepted 1
task 0.0 at 0 ok 2
task 0.1 at 0 refused exists
task 0.3 at 0 ok 3
node n0 handed 2,3 applied 1,2,3
apply n0 1>2 high 1 normal 1 low 1 listeners 2 created a deleted - changed - joined - left - settings -
apply n0 2>3 high 2 normal 2 low 2 listeners 3 created b deleted - changed - joined - left - settings -
view n0 {"aliases":{},"indices":{"a":1,"b":2},"settings":{}}
state {"cluster":"demo","id":3,"master":"n0","metadata":{"created":2,"indices":{"a":{"aliases":[],"aliases_version":1,"id":1,"open":true,"replicas":1,"settings_version":1,"shards":1,"version":1},"b":{"aliases":[],"aliases_version":1,"id":2,"open":true,"replicas":1,"settings_version":1,"shards":1,"version":1}},"settings":{},"version":3},"nodes":{"n0":{"eligible":true}},"term":1,"version":3}
"#,
    },
];
