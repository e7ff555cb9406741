use script_form::read_script;
use std::alloc::Global;
use std::test::Fail;

// What becomes of each script, worked out by hand: a line has what the program says of it after the word `refused`, or
// `accepted`, then a bar, and then the script. Lines that begin with `--` say what the next ones are about.
const TABLE: &str = r#"-- the text
not_json | {"version":1
not_json | {"version":1,"cluster":"c","nodes":[{"name":"a"}],"queues":[],"clients":[]} {}
not_json | {"version":1e999}
not_json | {"cluster":"\ud800"}
not_json | [[[[[[[[[[[[[[[[[[[[[[[[[[[[[[[[[[[[[[[[[[[[[[[[[[[[[[[[[[[[[[[[[[[[[[[[[[[[[[[[[[[[[[[[[[[[[[[[[[[[[[[[[[[[[[[[[[[[[[[[[[[[[[[[]]]]]]]]]]]]]]]]]]]]]]]]]]]]]]]]]]]]]]]]]]]]]]]]]]]]]]]]]]]]]]]]]]]]]]]]]]]]]]]]]]]]]]]]]]]]]]]]]]]]]]]]]]]]]]]]]]]]]]]]]]]]]]]]
bad_shape $ type | [[[[[[[[[[[[[[[[[[[[[[[[[[[[[[[[[[[[[[[[[[[[[[[[[[[[[[[[[[[[[[[[[[[[[[[[[[[[[[[[[[[[[[[[[[[[[[[[[[[[[[[[[[[[[[[[[[[[[[[[[[[[[[[]]]]]]]]]]]]]]]]]]]]]]]]]]]]]]]]]]]]]]]]]]]]]]]]]]]]]]]]]]]]]]]]]]]]]]]]]]]]]]]]]]]]]]]]]]]]]]]]]]]]]]]]]]]]]]]]]]]]]]]]]]]]]]]
-- the script as an object: type, unknown, missing in the table's order
bad_shape $ type | []
bad_shape version missing | {}
bad_shape cluster missing | {"version":1}
bad_shape nodes missing | {"version":1,"cluster":"c"}
bad_shape queues missing | {"version":1,"cluster":"c","nodes":[{"name":"a"}]}
bad_shape clients missing | {"version":1,"cluster":"c","nodes":[{"name":"a"}],"queues":[]}
bad_shape $ unknown | {"version":1,"cluster":"c","nodes":[{"name":"a"}],"queues":[],"clients":[],"x":0}
bad_shape $ unknown | {"x":0}
-- version: type, then version
bad_shape version type | {"version":"1"}
bad_shape version version | {"version":0}
bad_shape version version | {"version":2}
-- numbers that aren't whole numbers from 0 to 2^64 - 1
bad_shape version type | {"version":-0}
bad_shape version type | {"version":-1}
bad_shape version type | {"version":1.0}
bad_shape version type | {"version":1e3}
bad_shape version type | {"version":18446744073709551616}
bad_shape clients[0][0].task.shards type | {"version":1,"cluster":"c","nodes":[{"name":"a"}],"queues":[{"name":"q","executor":"create_index"}],"clients":[[{"do":"submit","queue":"q","task":{"index":"i","shards":-0}}]]}
bad_shape clients[0][0].task.replicas type | {"version":1,"cluster":"c","nodes":[{"name":"a"}],"queues":[{"name":"q","executor":"create_index"}],"clients":[[{"do":"submit","queue":"q","task":{"index":"i","replicas":1e3}}]]}
bad_shape clients[0][0].ms type | {"version":1,"cluster":"c","nodes":[{"name":"a"}],"queues":[],"clients":[[{"do":"sleep","ms":-1}]]}
bad_shape clients[0][0].pred.version type | {"version":1,"cluster":"c","nodes":[{"name":"a"}],"queues":[],"clients":[[{"do":"watch","node":"a","pred":{"version":18446744073709551616},"timeout":1}]]}
bad_shape clients[0][1].step type | {"version":1,"cluster":"c","nodes":[{"name":"a"}],"queues":[{"name":"q","executor":"create_index"}],"clients":[[{"do":"submit","queue":"q","task":{"index":"i"}},{"do":"await","step":-0,"for":"task"}]]}
bad_shape faults[0].publication type | {"version":1,"cluster":"c","nodes":[{"name":"a"},{"name":"b"}],"queues":[],"clients":[],"faults":[{"node":"b","publication":1.0,"kind":"apply"}]}
-- cluster: type, then name
bad_shape cluster type | {"version":1,"cluster":1}
bad_shape cluster name | {"version":1,"cluster":""}
bad_shape cluster name | {"version":1,"cluster":"C"}
bad_shape cluster name | {"version":1,"cluster":"aaaaaaaaaaaaaaaaaaaaaaaaaaaaaaaaaaaaaaaaaaaaaaaaaaaaaaaaaaaaaaaaa"}
bad_shape nodes missing | {"version":1,"cluster":"aaaaaaaaaaaaaaaaaaaaaaaaaaaaaaaaaaaaaaaaaaaaaaaaaaaaaaaaaaaaaaaa"}
-- nodes: the list, an item, its members, twice, master
bad_shape nodes type | {"version":1,"cluster":"c","nodes":{},"queues":[],"clients":[]}
bad_shape nodes range | {"version":1,"cluster":"c","nodes":[],"queues":[],"clients":[]}
limit nodes | {"version":1,"cluster":"c","nodes":[0,0,0,0,0,0,0,0,0,0,0,0,0,0,0,0,0,0,0,0,0,0,0,0,0,0,0,0,0,0,0],"queues":[],"clients":[]}
bad_shape nodes[0] type | {"version":1,"cluster":"c","nodes":[0,0,0,0,0,0,0,0,0,0,0,0,0,0,0,0,0,0,0,0,0,0,0,0,0,0,0,0,0,0],"queues":[],"clients":[]}
bad_shape nodes[0] unknown | {"version":1,"cluster":"c","nodes":[{"name":1,"x":0}],"queues":[],"clients":[]}
bad_shape nodes[0].name missing | {"version":1,"cluster":"c","nodes":[{"member":true}],"queues":[],"clients":[]}
bad_shape nodes[0].name type | {"version":1,"cluster":"c","nodes":[{"name":1}],"queues":[],"clients":[]}
bad_shape nodes[0].name name | {"version":1,"cluster":"c","nodes":[{"name":"-a"}],"queues":[],"clients":[]}
bad_shape nodes[0].eligible type | {"version":1,"cluster":"c","nodes":[{"name":"a","eligible":1}],"queues":[],"clients":[]}
bad_shape nodes[0].member type | {"version":1,"cluster":"c","nodes":[{"name":"a","member":"true"}],"queues":[],"clients":[]}
bad_shape nodes[0] master | {"version":1,"cluster":"c","nodes":[{"name":"a","member":false}],"queues":[],"clients":[]}
bad_shape nodes[0] master | {"version":1,"cluster":"c","nodes":[{"name":"a","member":false},5],"queues":[],"clients":[]}
bad_shape nodes[1].name twice | {"version":1,"cluster":"c","nodes":[{"name":"a"},{"name":"a"}],"queues":[],"clients":[]}
bad_shape nodes[2].name twice | {"version":1,"cluster":"c","nodes":[{"name":"a"},{"name":"b"},{"name":"a","eligible":false}],"queues":[],"clients":[]}
bad_shape nodes[1].member type | {"version":1,"cluster":"c","nodes":[{"name":"a"},{"name":"a","member":5}],"queues":[],"clients":[]}
-- queues: the list, an item, its members, twice
bad_shape queues type | {"version":1,"cluster":"c","nodes":[{"name":"a"}],"queues":null,"clients":[]}
limit queues | {"version":1,"cluster":"c","nodes":[{"name":"a"}],"queues":[0,0,0,0,0,0,0,0,0,0,0,0,0,0,0,0,0,0,0,0,0,0,0,0,0,0,0,0,0,0,0,0,0,0,0,0,0,0,0,0,0,0,0,0,0,0,0,0,0,0,0,0,0,0,0,0,0,0,0,0,0,0,0,0,0],"clients":[]}
bad_shape queues[0] type | {"version":1,"cluster":"c","nodes":[{"name":"a"}],"queues":[0,0,0,0,0,0,0,0,0,0,0,0,0,0,0,0,0,0,0,0,0,0,0,0,0,0,0,0,0,0,0,0,0,0,0,0,0,0,0,0,0,0,0,0,0,0,0,0,0,0,0,0,0,0,0,0,0,0,0,0,0,0,0,0],"clients":[]}
bad_shape queues[0] unknown | {"version":1,"cluster":"c","nodes":[{"name":"a"}],"queues":[{"name":"q","kind":"nodes"}],"clients":[]}
bad_shape queues[0].name missing | {"version":1,"cluster":"c","nodes":[{"name":"a"}],"queues":[{"executor":"x"}],"clients":[]}
bad_shape queues[0].name type | {"version":1,"cluster":"c","nodes":[{"name":"a"}],"queues":[{"name":0,"executor":0}],"clients":[]}
bad_shape queues[0].name name | {"version":1,"cluster":"c","nodes":[{"name":"a"}],"queues":[{"name":"Q","executor":"x"}],"clients":[]}
bad_shape queues[0].executor missing | {"version":1,"cluster":"c","nodes":[{"name":"a"}],"queues":[{"name":"q"}],"clients":[]}
bad_shape queues[0].executor value | {"version":1,"cluster":"c","nodes":[{"name":"a"}],"queues":[{"name":"q","executor":"create"}],"clients":[]}
bad_shape queues[0].priority type | {"version":1,"cluster":"c","nodes":[{"name":"a"}],"queues":[{"name":"q","executor":"nodes","priority":1}],"clients":[]}
bad_shape queues[0].priority value | {"version":1,"cluster":"c","nodes":[{"name":"a"}],"queues":[{"name":"q","executor":"nodes","priority":"low"}],"clients":[]}
bad_shape queues[1].name twice | {"version":1,"cluster":"c","nodes":[{"name":"a"}],"queues":[{"name":"q","executor":"nodes"},{"name":"q","executor":"aliases"}],"clients":[]}
bad_shape queues[1].executor value | {"version":1,"cluster":"c","nodes":[{"name":"a"}],"queues":[{"name":"q","executor":"nodes"},{"name":"q","executor":"x"}],"clients":[]}
-- clients: the list, a client, an item
bad_shape clients type | {"version":1,"cluster":"c","nodes":[{"name":"a"}],"queues":[],"clients":{}}
limit clients | {"version":1,"cluster":"c","nodes":[{"name":"a"}],"queues":[],"clients":[0,0,0,0,0,0,0,0,0,0,0,0,0,0,0,0,0,0,0,0,0,0,0,0,0,0,0,0,0,0,0,0,0]}
bad_shape clients[0] type | {"version":1,"cluster":"c","nodes":[{"name":"a"}],"queues":[],"clients":[0,0,0,0,0,0,0,0,0,0,0,0,0,0,0,0,0,0,0,0,0,0,0,0,0,0,0,0,0,0,0,0]}
bad_shape clients[1] type | {"version":1,"cluster":"c","nodes":[{"name":"a"}],"queues":[],"clients":[[],{}]}
bad_shape clients[1][1] type | {"version":1,"cluster":"c","nodes":[{"name":"a"}],"queues":[],"clients":[[],[{"do":"close"},"close"]]}
-- a step: type, do before all else, unknown
bad_shape clients[0][0] type | {"version":1,"cluster":"c","nodes":[{"name":"a"}],"queues":[],"clients":[[[]]]}
bad_shape clients[0][0].do missing | {"version":1,"cluster":"c","nodes":[{"name":"a"}],"queues":[],"clients":[[{}]]}
bad_shape clients[0][0].do type | {"version":1,"cluster":"c","nodes":[{"name":"a"}],"queues":[],"clients":[[{"do":1,"x":1}]]}
bad_shape clients[0][0].do value | {"version":1,"cluster":"c","nodes":[{"name":"a"}],"queues":[],"clients":[[{"do":"wait","x":1}]]}
-- submit
bad_shape clients[0][0] unknown | {"version":1,"cluster":"c","nodes":[{"name":"a"}],"queues":[{"name":"q","executor":"create_index"}],"clients":[[{"do":"submit","queue":1,"x":1}]]}
bad_shape clients[0][0].queue missing | {"version":1,"cluster":"c","nodes":[{"name":"a"}],"queues":[{"name":"q","executor":"create_index"}],"clients":[[{"do":"submit"}]]}
bad_shape clients[0][0].queue type | {"version":1,"cluster":"c","nodes":[{"name":"a"}],"queues":[{"name":"q","executor":"create_index"}],"clients":[[{"do":"submit","queue":0,"task":0}]]}
bad_shape clients[0][0].queue reference | {"version":1,"cluster":"c","nodes":[{"name":"a"}],"queues":[{"name":"q","executor":"create_index"}],"clients":[[{"do":"submit","queue":"p","task":0}]]}
bad_shape clients[0][0].queue reference | {"version":1,"cluster":"c","nodes":[{"name":"a"}],"queues":[{"name":"q","executor":"create_index"}],"clients":[[{"do":"submit","queue":"?","task":0}]]}
bad_shape clients[0][0].task missing | {"version":1,"cluster":"c","nodes":[{"name":"a"}],"queues":[{"name":"q","executor":"create_index"}],"clients":[[{"do":"submit","queue":"q","timeout":-1}]]}
bad_shape clients[0][0].timeout type | {"version":1,"cluster":"c","nodes":[{"name":"a"},{"name":"b"}],"queues":[{"name":"q","executor":"create_index"}],"clients":[[{"do":"submit","queue":"q","task":{"index":"i"},"timeout":"1"}]]}
bad_shape clients[0][0].timeout range | {"version":1,"cluster":"c","nodes":[{"name":"a"},{"name":"b"}],"queues":[{"name":"q","executor":"create_index"}],"clients":[[{"do":"submit","queue":"q","task":{"index":"i"},"timeout":4294967296,"ack":0}]]}
bad_shape clients[0][0].ack type | {"version":1,"cluster":"c","nodes":[{"name":"a"},{"name":"b"}],"queues":[{"name":"q","executor":"create_index"}],"clients":[[{"do":"submit","queue":"q","task":{"index":"i"},"timeout":4294967295,"ack":0}]]}
-- a task, by its queue's executor
bad_shape clients[0][0].task type | {"version":1,"cluster":"c","nodes":[{"name":"a"}],"queues":[{"name":"q","executor":"create_index"}],"clients":[[{"do":"submit","queue":"q","task":"i"}]]}
bad_shape clients[0][0].task.index missing | {"version":1,"cluster":"c","nodes":[{"name":"a"}],"queues":[{"name":"q","executor":"create_index"}],"clients":[[{"do":"submit","queue":"q","task":{}}]]}
bad_shape clients[0][0].task.index type | {"version":1,"cluster":"c","nodes":[{"name":"a"}],"queues":[{"name":"q","executor":"create_index"}],"clients":[[{"do":"submit","queue":"q","task":{"index":1,"shards":"1"}}]]}
bad_shape clients[0][0].task unknown | {"version":1,"cluster":"c","nodes":[{"name":"a"}],"queues":[{"name":"q","executor":"create_index"}],"clients":[[{"do":"submit","queue":"q","task":{"index":"i","open":true}}]]}
bad_shape clients[0][0].task.shards type | {"version":1,"cluster":"c","nodes":[{"name":"a"}],"queues":[{"name":"q","executor":"create_index"}],"clients":[[{"do":"submit","queue":"q","task":{"index":"i","shards":null}}]]}
bad_shape clients[0][0].task.replicas type | {"version":1,"cluster":"c","nodes":[{"name":"a"}],"queues":[{"name":"q","executor":"create_index"}],"clients":[[{"do":"submit","queue":"q","task":{"index":"i","replicas":true}}]]}
bad_shape clients[0][0].task type | {"version":1,"cluster":"c","nodes":[{"name":"a"}],"queues":[{"name":"q","executor":"delete_index"}],"clients":[[{"do":"submit","queue":"q","task":[]}]]}
bad_shape clients[0][0].task unknown | {"version":1,"cluster":"c","nodes":[{"name":"a"}],"queues":[{"name":"q","executor":"delete_index"}],"clients":[[{"do":"submit","queue":"q","task":{"index":"i","shards":1}}]]}
bad_shape clients[0][0].task.index missing | {"version":1,"cluster":"c","nodes":[{"name":"a"}],"queues":[{"name":"q","executor":"delete_index"}],"clients":[[{"do":"submit","queue":"q","task":{}}]]}
bad_shape clients[0][0].task unknown | {"version":1,"cluster":"c","nodes":[{"name":"a"}],"queues":[{"name":"q","executor":"index_settings"}],"clients":[[{"do":"submit","queue":"q","task":{"index":"i","key":"k","value":1,"x":0}}]]}
bad_shape clients[0][0].task.key missing | {"version":1,"cluster":"c","nodes":[{"name":"a"}],"queues":[{"name":"q","executor":"index_settings"}],"clients":[[{"do":"submit","queue":"q","task":{"index":"i","value":"1"}}]]}
bad_shape clients[0][0].task.key type | {"version":1,"cluster":"c","nodes":[{"name":"a"}],"queues":[{"name":"q","executor":"index_settings"}],"clients":[[{"do":"submit","queue":"q","task":{"index":"i","key":1}}]]}
bad_shape clients[0][0].task.value missing | {"version":1,"cluster":"c","nodes":[{"name":"a"}],"queues":[{"name":"q","executor":"index_settings"}],"clients":[[{"do":"submit","queue":"q","task":{"index":"i","key":"k"}}]]}
bad_shape clients[0][0].task.value type | {"version":1,"cluster":"c","nodes":[{"name":"a"}],"queues":[{"name":"q","executor":"index_settings"}],"clients":[[{"do":"submit","queue":"q","task":{"index":"i","key":"k","value":"1"}}]]}
bad_shape clients[0][0].task unknown | {"version":1,"cluster":"c","nodes":[{"name":"a"}],"queues":[{"name":"q","executor":"open_close"}],"clients":[[{"do":"submit","queue":"q","task":{"index":"i","opened":true}}]]}
bad_shape clients[0][0].task.open missing | {"version":1,"cluster":"c","nodes":[{"name":"a"}],"queues":[{"name":"q","executor":"open_close"}],"clients":[[{"do":"submit","queue":"q","task":{"index":"i"}}]]}
bad_shape clients[0][0].task.open type | {"version":1,"cluster":"c","nodes":[{"name":"a"}],"queues":[{"name":"q","executor":"open_close"}],"clients":[[{"do":"submit","queue":"q","task":{"index":"i","open":"true"}}]]}
bad_shape clients[0][0].task unknown | {"version":1,"cluster":"c","nodes":[{"name":"a"}],"queues":[{"name":"q","executor":"aliases"}],"clients":[[{"do":"submit","queue":"q","task":{"index":"i","alias":"x","action":"add","x":0}}]]}
bad_shape clients[0][0].task.alias missing | {"version":1,"cluster":"c","nodes":[{"name":"a"}],"queues":[{"name":"q","executor":"aliases"}],"clients":[[{"do":"submit","queue":"q","task":{"index":"i","action":"join"}}]]}
bad_shape clients[0][0].task.alias type | {"version":1,"cluster":"c","nodes":[{"name":"a"}],"queues":[{"name":"q","executor":"aliases"}],"clients":[[{"do":"submit","queue":"q","task":{"index":"i","alias":5}}]]}
bad_shape clients[0][0].task.action missing | {"version":1,"cluster":"c","nodes":[{"name":"a"}],"queues":[{"name":"q","executor":"aliases"}],"clients":[[{"do":"submit","queue":"q","task":{"index":"i","alias":"x"}}]]}
bad_shape clients[0][0].task.action value | {"version":1,"cluster":"c","nodes":[{"name":"a"}],"queues":[{"name":"q","executor":"aliases"}],"clients":[[{"do":"submit","queue":"q","task":{"index":"i","alias":"x","action":"join"}}]]}
bad_shape clients[0][0].task.index missing | {"version":1,"cluster":"c","nodes":[{"name":"a"}],"queues":[{"name":"q","executor":"aliases_atomic"}],"clients":[[{"do":"submit","queue":"q","task":{"alias":"x"}}]]}
bad_shape clients[0][0].task.action value | {"version":1,"cluster":"c","nodes":[{"name":"a"}],"queues":[{"name":"q","executor":"aliases_atomic"}],"clients":[[{"do":"submit","queue":"q","task":{"index":"i","alias":"x","action":"Add"}}]]}
bad_shape clients[0][0].task unknown | {"version":1,"cluster":"c","nodes":[{"name":"a"}],"queues":[{"name":"q","executor":"cluster_settings"}],"clients":[[{"do":"submit","queue":"q","task":{"key":"k","value":"v","index":"i"}}]]}
bad_shape clients[0][0].task.key missing | {"version":1,"cluster":"c","nodes":[{"name":"a"}],"queues":[{"name":"q","executor":"cluster_settings"}],"clients":[[{"do":"submit","queue":"q","task":{"value":1}}]]}
bad_shape clients[0][0].task.key type | {"version":1,"cluster":"c","nodes":[{"name":"a"}],"queues":[{"name":"q","executor":"cluster_settings"}],"clients":[[{"do":"submit","queue":"q","task":{"key":null,"value":null}}]]}
bad_shape clients[0][0].task.value missing | {"version":1,"cluster":"c","nodes":[{"name":"a"}],"queues":[{"name":"q","executor":"cluster_settings"}],"clients":[[{"do":"submit","queue":"q","task":{"key":"k"}}]]}
bad_shape clients[0][0].task.value type | {"version":1,"cluster":"c","nodes":[{"name":"a"}],"queues":[{"name":"q","executor":"cluster_settings"}],"clients":[[{"do":"submit","queue":"q","task":{"key":"k","value":1}}]]}
bad_shape clients[0][0].task.node missing | {"version":1,"cluster":"c","nodes":[{"name":"a"}],"queues":[{"name":"q","executor":"nodes"}],"clients":[[{"do":"submit","queue":"q","task":{"action":"x"}}]]}
bad_shape clients[0][0].task.node reference | {"version":1,"cluster":"c","nodes":[{"name":"a"}],"queues":[{"name":"q","executor":"nodes"}],"clients":[[{"do":"submit","queue":"q","task":{"node":"b","action":"x"}}]]}
bad_shape clients[0][0].task.action missing | {"version":1,"cluster":"c","nodes":[{"name":"a"}],"queues":[{"name":"q","executor":"nodes"}],"clients":[[{"do":"submit","queue":"q","task":{"node":"a"}}]]}
bad_shape clients[0][0].task.action value | {"version":1,"cluster":"c","nodes":[{"name":"a"}],"queues":[{"name":"q","executor":"nodes"}],"clients":[[{"do":"submit","queue":"q","task":{"node":"a","action":"add"}}]]}
bad_shape clients[0][0].task type | {"version":1,"cluster":"c","nodes":[{"name":"a"}],"queues":[{"name":"q","executor":"reelect"}],"clients":[[{"do":"submit","queue":"q","task":null}]]}
bad_shape clients[0][0].task unknown | {"version":1,"cluster":"c","nodes":[{"name":"a"}],"queues":[{"name":"q","executor":"reelect"}],"clients":[[{"do":"submit","queue":"q","task":{"index":"i"}}]]}
-- ack and its nodes
bad_shape clients[0][0].ack type | {"version":1,"cluster":"c","nodes":[{"name":"a"},{"name":"b"}],"queues":[{"name":"q","executor":"create_index"}],"clients":[[{"do":"submit","queue":"q","task":{"index":"i"},"ack":null}]]}
bad_shape clients[0][0].ack unknown | {"version":1,"cluster":"c","nodes":[{"name":"a"},{"name":"b"}],"queues":[{"name":"q","executor":"create_index"}],"clients":[[{"do":"submit","queue":"q","task":{"index":"i"},"ack":{"timeout":1,"x":0}}]]}
bad_shape clients[0][0].ack.nodes missing | {"version":1,"cluster":"c","nodes":[{"name":"a"},{"name":"b"}],"queues":[{"name":"q","executor":"create_index"}],"clients":[[{"do":"submit","queue":"q","task":{"index":"i"},"ack":{}}]]}
bad_shape clients[0][0].ack.nodes type | {"version":1,"cluster":"c","nodes":[{"name":"a"},{"name":"b"}],"queues":[{"name":"q","executor":"create_index"}],"clients":[[{"do":"submit","queue":"q","task":{"index":"i"},"ack":{"nodes":1}}]]}
bad_shape clients[0][0].ack.nodes value | {"version":1,"cluster":"c","nodes":[{"name":"a"},{"name":"b"}],"queues":[{"name":"q","executor":"create_index"}],"clients":[[{"do":"submit","queue":"q","task":{"index":"i"},"ack":{"nodes":"a"}}]]}
bad_shape clients[0][0].ack.nodes[1] type | {"version":1,"cluster":"c","nodes":[{"name":"a"},{"name":"b"}],"queues":[{"name":"q","executor":"create_index"}],"clients":[[{"do":"submit","queue":"q","task":{"index":"i"},"ack":{"nodes":["a",0]}}]]}
bad_shape clients[0][0].ack.nodes[1] reference | {"version":1,"cluster":"c","nodes":[{"name":"a"},{"name":"b"}],"queues":[{"name":"q","executor":"create_index"}],"clients":[[{"do":"submit","queue":"q","task":{"index":"i"},"ack":{"nodes":["a","c","a"]}}]]}
bad_shape clients[0][0].ack.nodes[2] twice | {"version":1,"cluster":"c","nodes":[{"name":"a"},{"name":"b"}],"queues":[{"name":"q","executor":"create_index"}],"clients":[[{"do":"submit","queue":"q","task":{"index":"i"},"ack":{"nodes":["b","a","b"],"timeout":-1}}]]}
bad_shape clients[0][0].ack.timeout type | {"version":1,"cluster":"c","nodes":[{"name":"a"},{"name":"b"}],"queues":[{"name":"q","executor":"create_index"}],"clients":[[{"do":"submit","queue":"q","task":{"index":"i"},"ack":{"nodes":"all","timeout":null}}]]}
bad_shape clients[0][0].ack.timeout range | {"version":1,"cluster":"c","nodes":[{"name":"a"},{"name":"b"}],"queues":[{"name":"q","executor":"create_index"}],"clients":[[{"do":"submit","queue":"q","task":{"index":"i"},"ack":{"nodes":[],"timeout":4294967296}}]]}
-- await: the step, then for, then whether they fit
bad_shape clients[0][1] unknown | {"version":1,"cluster":"c","nodes":[{"name":"a"}],"queues":[{"name":"q","executor":"create_index"}],"clients":[[{"do":"submit","queue":"q","task":{"index":"i"}},{"do":"await","step":0,"for":"task","timeout":1}]]}
bad_shape clients[0][1].step missing | {"version":1,"cluster":"c","nodes":[{"name":"a"}],"queues":[{"name":"q","executor":"create_index"}],"clients":[[{"do":"submit","queue":"q","task":{"index":"i"}},{"do":"await","for":"task"}]]}
bad_shape clients[0][1].step type | {"version":1,"cluster":"c","nodes":[{"name":"a"}],"queues":[{"name":"q","executor":"create_index"}],"clients":[[{"do":"submit","queue":"q","task":{"index":"i"}},{"do":"await","step":"0"}]]}
bad_shape clients[0][1].step reference | {"version":1,"cluster":"c","nodes":[{"name":"a"}],"queues":[{"name":"q","executor":"create_index"}],"clients":[[{"do":"submit","queue":"q","task":{"index":"i"}},{"do":"await","step":2,"for":"end"}]]}
bad_shape clients[0][0].step reference | {"version":1,"cluster":"c","nodes":[{"name":"a"}],"queues":[{"name":"q","executor":"create_index"}],"clients":[[{"do":"await","step":0,"for":"task"}]]}
bad_shape clients[0][1].step reference | {"version":1,"cluster":"c","nodes":[{"name":"a"}],"queues":[{"name":"q","executor":"create_index"}],"clients":[[{"do":"submit","queue":"q","task":{"index":"i"}},{"do":"await","step":18446744073709551615,"for":"task"}]]}
bad_shape clients[1][0].step reference | {"version":1,"cluster":"c","nodes":[{"name":"a"}],"queues":[{"name":"q","executor":"create_index"}],"clients":[[{"do":"submit","queue":"q","task":{"index":"i"}}],[{"do":"await","step":0,"for":"task"}]]}
bad_shape clients[0][1].for missing | {"version":1,"cluster":"c","nodes":[{"name":"a"}],"queues":[{"name":"q","executor":"create_index"}],"clients":[[{"do":"submit","queue":"q","task":{"index":"i"}},{"do":"await","step":0}]]}
bad_shape clients[0][1].for type | {"version":1,"cluster":"c","nodes":[{"name":"a"}],"queues":[{"name":"q","executor":"create_index"}],"clients":[[{"do":"submit","queue":"q","task":{"index":"i"}},{"do":"await","step":0,"for":0}]]}
bad_shape clients[0][1].for value | {"version":1,"cluster":"c","nodes":[{"name":"a"}],"queues":[{"name":"q","executor":"create_index"}],"clients":[[{"do":"submit","queue":"q","task":{"index":"i"}},{"do":"await","step":0,"for":"end"}]]}
bad_shape clients[0][1].step reference | {"version":1,"cluster":"c","nodes":[{"name":"a"}],"queues":[{"name":"q","executor":"create_index"}],"clients":[[{"do":"submit","queue":"q","task":{"index":"i"}},{"do":"await","step":0,"for":"ack"}]]}
bad_shape clients[0][1].step reference | {"version":1,"cluster":"c","nodes":[{"name":"a"}],"queues":[{"name":"q","executor":"create_index"}],"clients":[[{"do":"submit","queue":"q","task":{"index":"i"}},{"do":"await","step":0,"for":"watch"}]]}
-- watch
bad_shape clients[0][0] unknown | {"version":1,"cluster":"c","nodes":[{"name":"a"}],"queues":[],"clients":[[{"do":"watch","node":0,"last":1}]]}
bad_shape clients[0][0].node missing | {"version":1,"cluster":"c","nodes":[{"name":"a"}],"queues":[],"clients":[[{"do":"watch","pred":0}]]}
bad_shape clients[0][0].node type | {"version":1,"cluster":"c","nodes":[{"name":"a"}],"queues":[],"clients":[[{"do":"watch","node":0,"pred":0}]]}
bad_shape clients[0][0].node reference | {"version":1,"cluster":"c","nodes":[{"name":"a"}],"queues":[],"clients":[[{"do":"watch","node":"b"}]]}
bad_shape clients[0][0].pred missing | {"version":1,"cluster":"c","nodes":[{"name":"a"}],"queues":[],"clients":[[{"do":"watch","node":"a","then":0}]]}
bad_shape clients[0][0].then type | {"version":1,"cluster":"c","nodes":[{"name":"a"}],"queues":[],"clients":[[{"do":"watch","node":"a","pred":{"index":"i"},"then":{}}]]}
limit then | {"version":1,"cluster":"c","nodes":[{"name":"a"}],"queues":[],"clients":[[{"do":"watch","node":"a","pred":{"index":"i"},"then":[0,0,0,0,0,0,0,0,0]}]]}
bad_shape clients[0][0].then[0] type | {"version":1,"cluster":"c","nodes":[{"name":"a"}],"queues":[],"clients":[[{"do":"watch","node":"a","pred":{"index":"i"},"then":[0,0,0,0,0,0,0,0]}]]}
bad_shape clients[0][0].then[1] value | {"version":1,"cluster":"c","nodes":[{"name":"a"}],"queues":[],"clients":[[{"do":"watch","node":"a","pred":{"index":"i"},"then":[{"alias":"x"},{}],"timeout":0}]]}
bad_shape clients[0][0].timeout missing | {"version":1,"cluster":"c","nodes":[{"name":"a"}],"queues":[],"clients":[[{"do":"watch","node":"a","pred":{"index":"i"}}]]}
bad_shape clients[0][0].timeout type | {"version":1,"cluster":"c","nodes":[{"name":"a"}],"queues":[],"clients":[[{"do":"watch","node":"a","pred":{"index":"i"},"timeout":"1"}]]}
bad_shape clients[0][0].timeout range | {"version":1,"cluster":"c","nodes":[{"name":"a"}],"queues":[],"clients":[[{"do":"watch","node":"a","pred":{"index":"i"},"timeout":0}]]}
-- next
bad_shape clients[0][1] unknown | {"version":1,"cluster":"c","nodes":[{"name":"a"}],"queues":[],"clients":[[{"do":"watch","node":"a","pred":{"index":"i"},"timeout":1},{"do":"next","watch":0,"node":"a"}]]}
bad_shape clients[0][1].watch missing | {"version":1,"cluster":"c","nodes":[{"name":"a"}],"queues":[],"clients":[[{"do":"watch","node":"a","pred":{"index":"i"},"timeout":1},{"do":"next","pred":0}]]}
bad_shape clients[0][1].watch type | {"version":1,"cluster":"c","nodes":[{"name":"a"}],"queues":[],"clients":[[{"do":"watch","node":"a","pred":{"index":"i"},"timeout":1},{"do":"next","watch":"0"}]]}
bad_shape clients[0][1].watch reference | {"version":1,"cluster":"c","nodes":[{"name":"a"}],"queues":[],"clients":[[{"do":"watch","node":"a","pred":{"index":"i"},"timeout":1},{"do":"next","watch":1,"pred":0}]]}
bad_shape clients[0][0].watch reference | {"version":1,"cluster":"c","nodes":[{"name":"a"}],"queues":[],"clients":[[{"do":"next","watch":0}]]}
bad_shape clients[0][1].watch reference | {"version":1,"cluster":"c","nodes":[{"name":"a"}],"queues":[],"clients":[[{"do":"sleep","ms":1},{"do":"next","watch":0,"pred":0}]]}
bad_shape clients[0][1].pred missing | {"version":1,"cluster":"c","nodes":[{"name":"a"}],"queues":[],"clients":[[{"do":"watch","node":"a","pred":{"index":"i"},"timeout":1},{"do":"next","watch":0,"timeout":0}]]}
bad_shape clients[0][1].then[0] type | {"version":1,"cluster":"c","nodes":[{"name":"a"}],"queues":[],"clients":[[{"do":"watch","node":"a","pred":{"index":"i"},"timeout":1},{"do":"next","watch":0,"pred":{"index":"i"},"then":[0],"timeout":0}]]}
bad_shape clients[0][1].timeout range | {"version":1,"cluster":"c","nodes":[{"name":"a"}],"queues":[],"clients":[[{"do":"watch","node":"a","pred":{"index":"i"},"timeout":1},{"do":"next","watch":0,"pred":{"index":"i"},"timeout":0}]]}
-- predicates: type, value, depth, then the member
bad_shape clients[0][0].pred type | {"version":1,"cluster":"c","nodes":[{"name":"a"}],"queues":[],"clients":[[{"do":"watch","node":"a","pred":"i","timeout":1}]]}
bad_shape clients[0][0].pred value | {"version":1,"cluster":"c","nodes":[{"name":"a"}],"queues":[],"clients":[[{"do":"watch","node":"a","pred":{},"timeout":1}]]}
bad_shape clients[0][0].pred value | {"version":1,"cluster":"c","nodes":[{"name":"a"}],"queues":[],"clients":[[{"do":"watch","node":"a","pred":{"term":1},"timeout":1}]]}
bad_shape clients[0][0].pred value | {"version":1,"cluster":"c","nodes":[{"name":"a"}],"queues":[],"clients":[[{"do":"watch","node":"a","pred":{"index":"i","alias":"x"},"timeout":1}]]}
bad_shape clients[0][0].pred.index type | {"version":1,"cluster":"c","nodes":[{"name":"a"}],"queues":[],"clients":[[{"do":"watch","node":"a","pred":{"index":1},"timeout":1}]]}
bad_shape clients[0][0].pred.alias type | {"version":1,"cluster":"c","nodes":[{"name":"a"}],"queues":[],"clients":[[{"do":"watch","node":"a","pred":{"alias":null},"timeout":1}]]}
bad_shape clients[0][0].pred.node type | {"version":1,"cluster":"c","nodes":[{"name":"a"}],"queues":[],"clients":[[{"do":"watch","node":"a","pred":{"node":["a"]},"timeout":1}]]}
bad_shape clients[0][0].pred.version type | {"version":1,"cluster":"c","nodes":[{"name":"a"}],"queues":[],"clients":[[{"do":"watch","node":"a","pred":{"version":"2"},"timeout":1}]]}
bad_shape clients[0][0].pred.setting type | {"version":1,"cluster":"c","nodes":[{"name":"a"}],"queues":[],"clients":[[{"do":"watch","node":"a","pred":{"setting":"k"},"timeout":1}]]}
bad_shape clients[0][0].pred.setting unknown | {"version":1,"cluster":"c","nodes":[{"name":"a"}],"queues":[],"clients":[[{"do":"watch","node":"a","pred":{"setting":{"key":1,"x":0}},"timeout":1}]]}
bad_shape clients[0][0].pred.setting.key missing | {"version":1,"cluster":"c","nodes":[{"name":"a"}],"queues":[],"clients":[[{"do":"watch","node":"a","pred":{"setting":{"value":0}},"timeout":1}]]}
bad_shape clients[0][0].pred.setting.key type | {"version":1,"cluster":"c","nodes":[{"name":"a"}],"queues":[],"clients":[[{"do":"watch","node":"a","pred":{"setting":{"key":0}},"timeout":1}]]}
bad_shape clients[0][0].pred.setting.value missing | {"version":1,"cluster":"c","nodes":[{"name":"a"}],"queues":[],"clients":[[{"do":"watch","node":"a","pred":{"setting":{"key":"k"}},"timeout":1}]]}
bad_shape clients[0][0].pred.not type | {"version":1,"cluster":"c","nodes":[{"name":"a"}],"queues":[],"clients":[[{"do":"watch","node":"a","pred":{"not":[]},"timeout":1}]]}
bad_shape clients[0][0].pred.not value | {"version":1,"cluster":"c","nodes":[{"name":"a"}],"queues":[],"clients":[[{"do":"watch","node":"a","pred":{"not":{}},"timeout":1}]]}
bad_shape clients[0][0].pred.not.not.index type | {"version":1,"cluster":"c","nodes":[{"name":"a"}],"queues":[],"clients":[[{"do":"watch","node":"a","pred":{"not":{"not":{"index":1}}},"timeout":1}]]}
bad_shape clients[0][0].pred.all type | {"version":1,"cluster":"c","nodes":[{"name":"a"}],"queues":[],"clients":[[{"do":"watch","node":"a","pred":{"all":{"index":"i"}},"timeout":1}]]}
bad_shape clients[0][0].pred.all[1] type | {"version":1,"cluster":"c","nodes":[{"name":"a"}],"queues":[],"clients":[[{"do":"watch","node":"a","pred":{"all":[{"index":"i"},5]},"timeout":1}]]}
bad_shape clients[0][0].pred.any type | {"version":1,"cluster":"c","nodes":[{"name":"a"}],"queues":[],"clients":[[{"do":"watch","node":"a","pred":{"any":null},"timeout":1}]]}
bad_shape clients[0][0].pred.any[2] value | {"version":1,"cluster":"c","nodes":[{"name":"a"}],"queues":[],"clients":[[{"do":"watch","node":"a","pred":{"any":[{"index":"i"},{"alias":"x"},{"x":1}]},"timeout":1}]]}
bad_shape clients[0][0].pred.any[0].not.alias type | {"version":1,"cluster":"c","nodes":[{"name":"a"}],"queues":[],"clients":[[{"do":"watch","node":"a","pred":{"any":[{"not":{"alias":1}}]},"timeout":1}]]}
bad_shape clients[0][0].then[1].any[0].not type | {"version":1,"cluster":"c","nodes":[{"name":"a"}],"queues":[],"clients":[[{"do":"watch","node":"a","pred":{"index":"i"},"then":[{"all":[]},{"any":[{"not":0}]}],"timeout":1}]]}
limit depth | {"version":1,"cluster":"c","nodes":[{"name":"a"}],"queues":[],"clients":[[{"do":"watch","node":"a","pred":{"not":{"not":{"not":{"not":{"not":{"not":{"not":{"not":{"not":{"not":{"not":{"not":{"not":{"not":{"not":{"not":{"index":1}}}}}}}}}}}}}}}}},"timeout":1}]]}
bad_shape clients[0][0].pred.not.not.not.not.not.not.not.not.not.not.not.not.not.not.not.not value | {"version":1,"cluster":"c","nodes":[{"name":"a"}],"queues":[],"clients":[[{"do":"watch","node":"a","pred":{"not":{"not":{"not":{"not":{"not":{"not":{"not":{"not":{"not":{"not":{"not":{"not":{"not":{"not":{"not":{"not":{}}}}}}}}}}}}}}}}},"timeout":1}]]}
bad_shape clients[0][0].pred.not.not.not.not.not.not.not.not.not.not.not.not.not.not.not.not type | {"version":1,"cluster":"c","nodes":[{"name":"a"}],"queues":[],"clients":[[{"do":"watch","node":"a","pred":{"not":{"not":{"not":{"not":{"not":{"not":{"not":{"not":{"not":{"not":{"not":{"not":{"not":{"not":{"not":{"not":0}}}}}}}}}}}}}}}},"timeout":1}]]}
bad_shape clients[0][0].pred.not.not.not.not.not.not.not.not.not.not.not.not.not.not.not.index type | {"version":1,"cluster":"c","nodes":[{"name":"a"}],"queues":[],"clients":[[{"do":"watch","node":"a","pred":{"not":{"not":{"not":{"not":{"not":{"not":{"not":{"not":{"not":{"not":{"not":{"not":{"not":{"not":{"not":{"index":1}}}}}}}}}}}}}}}},"timeout":1}]]}
limit depth | {"version":1,"cluster":"c","nodes":[{"name":"a"}],"queues":[],"clients":[[{"do":"watch","node":"a","pred":{"index":"i"},"then":[{"any":[{"any":[{"any":[{"any":[{"any":[{"any":[{"any":[{"any":[{"any":[{"any":[{"any":[{"any":[{"any":[{"any":[{"any":[{"any":[{"all":[]}]}]}]}]}]}]}]}]}]}]}]}]}]}]}]}]}],"timeout":0}]]}
-- read: unknown, node, how many choices, the one choice
bad_shape clients[0][0] unknown | {"version":1,"cluster":"c","nodes":[{"name":"a"}],"queues":[],"clients":[[{"do":"read","key":"k"}]]}
bad_shape clients[0][0].node missing | {"version":1,"cluster":"c","nodes":[{"name":"a"}],"queues":[],"clients":[[{"do":"read"}]]}
bad_shape clients[0][0].node reference | {"version":1,"cluster":"c","nodes":[{"name":"a"}],"queues":[],"clients":[[{"do":"read","node":"b","index":"i","alias":"x"}]]}
bad_shape clients[0][0] missing | {"version":1,"cluster":"c","nodes":[{"name":"a"}],"queues":[],"clients":[[{"do":"read","node":"a"}]]}
bad_shape clients[0][0] value | {"version":1,"cluster":"c","nodes":[{"name":"a"}],"queues":[],"clients":[[{"do":"read","node":"a","index":1,"alias":2}]]}
bad_shape clients[0][0].index type | {"version":1,"cluster":"c","nodes":[{"name":"a"}],"queues":[],"clients":[[{"do":"read","node":"a","index":1}]]}
bad_shape clients[0][0].alias type | {"version":1,"cluster":"c","nodes":[{"name":"a"}],"queues":[],"clients":[[{"do":"read","node":"a","alias":null}]]}
bad_shape clients[0][0].setting type | {"version":1,"cluster":"c","nodes":[{"name":"a"}],"queues":[],"clients":[[{"do":"read","node":"a","setting":{}}]]}
-- sleep and close
bad_shape clients[0][0] unknown | {"version":1,"cluster":"c","nodes":[{"name":"a"}],"queues":[],"clients":[[{"do":"sleep","s":1}]]}
bad_shape clients[0][0].ms missing | {"version":1,"cluster":"c","nodes":[{"name":"a"}],"queues":[],"clients":[[{"do":"sleep"}]]}
bad_shape clients[0][0].ms type | {"version":1,"cluster":"c","nodes":[{"name":"a"}],"queues":[],"clients":[[{"do":"sleep","ms":"1"}]]}
bad_shape clients[0][0].ms range | {"version":1,"cluster":"c","nodes":[{"name":"a"}],"queues":[],"clients":[[{"do":"sleep","ms":4294967296}]]}
bad_shape clients[0][0] unknown | {"version":1,"cluster":"c","nodes":[{"name":"a"}],"queues":[],"clients":[[{"do":"close","ms":1}]]}
bad_shape clients[0][1] close | {"version":1,"cluster":"c","nodes":[{"name":"a"}],"queues":[],"clients":[[{"do":"close"},{"do":"close"},5]]}
bad_shape clients[1][1] close | {"version":1,"cluster":"c","nodes":[{"name":"a"}],"queues":[],"clients":[[{"do":"close"}],[{"do":"sleep","ms":1},{"do":"close"}]]}
-- faults: the list, an item, its members, master, twice
bad_shape faults type | {"version":1,"cluster":"c","nodes":[{"name":"a"},{"name":"b"}],"queues":[],"clients":[],"faults":null}
bad_shape faults[0] type | {"version":1,"cluster":"c","nodes":[{"name":"a"},{"name":"b"}],"queues":[],"clients":[],"faults":["b"]}
bad_shape faults[0] unknown | {"version":1,"cluster":"c","nodes":[{"name":"a"},{"name":"b"}],"queues":[],"clients":[],"faults":[{"node":"a","x":0}]}
bad_shape faults[0].node missing | {"version":1,"cluster":"c","nodes":[{"name":"a"},{"name":"b"}],"queues":[],"clients":[],"faults":[{"publication":0}]}
bad_shape faults[0].node reference | {"version":1,"cluster":"c","nodes":[{"name":"a"},{"name":"b"}],"queues":[],"clients":[],"faults":[{"node":"c","publication":0}]}
bad_shape faults[0].node master | {"version":1,"cluster":"c","nodes":[{"name":"a"},{"name":"b"}],"queues":[],"clients":[],"faults":[{"node":"a","publication":0,"kind":"slow"}]}
bad_shape faults[0].publication missing | {"version":1,"cluster":"c","nodes":[{"name":"a"},{"name":"b"}],"queues":[],"clients":[],"faults":[{"node":"b","kind":"slow"}]}
bad_shape faults[0].publication type | {"version":1,"cluster":"c","nodes":[{"name":"a"},{"name":"b"}],"queues":[],"clients":[],"faults":[{"node":"b","publication":"1"}]}
bad_shape faults[0].publication range | {"version":1,"cluster":"c","nodes":[{"name":"a"},{"name":"b"}],"queues":[],"clients":[],"faults":[{"node":"b","publication":0,"kind":"slow"}]}
bad_shape faults[0].kind missing | {"version":1,"cluster":"c","nodes":[{"name":"a"},{"name":"b"}],"queues":[],"clients":[],"faults":[{"node":"b","publication":1}]}
bad_shape faults[0].kind type | {"version":1,"cluster":"c","nodes":[{"name":"a"},{"name":"b"}],"queues":[],"clients":[],"faults":[{"node":"b","publication":1,"kind":0}]}
bad_shape faults[0].kind value | {"version":1,"cluster":"c","nodes":[{"name":"a"},{"name":"b"}],"queues":[],"clients":[],"faults":[{"node":"b","publication":1,"kind":"slow"}]}
bad_shape faults[2] twice | {"version":1,"cluster":"c","nodes":[{"name":"a"},{"name":"b"}],"queues":[],"clients":[],"faults":[{"node":"b","publication":1,"kind":"apply"},{"node":"b","publication":2,"kind":"apply"},{"node":"b","publication":1,"kind":"unreachable"}]}
bad_shape faults[1].kind value | {"version":1,"cluster":"c","nodes":[{"name":"a"},{"name":"b"}],"queues":[],"clients":[],"faults":[{"node":"b","publication":1,"kind":"apply"},{"node":"b","publication":1,"kind":"slow"}]}
-- turns: type, value, reference
bad_shape schedule type | {"version":1,"cluster":"c","nodes":[{"name":"a"}],"queues":[],"clients":[],"schedule":null}
bad_shape schedule[0] type | {"version":1,"cluster":"c","nodes":[{"name":"a"}],"queues":[],"clients":[],"schedule":[0]}
bad_shape schedule[0] value | {"version":1,"cluster":"c","nodes":[{"name":"a"}],"queues":[],"clients":[],"schedule":[""]}
bad_shape schedule[0] value | {"version":1,"cluster":"c","nodes":[{"name":"a"}],"queues":[],"clients":[],"schedule":["M"]}
bad_shape schedule[0] value | {"version":1,"cluster":"c","nodes":[{"name":"a"}],"queues":[],"clients":[],"schedule":["c"]}
bad_shape schedule[0] value | {"version":1,"cluster":"c","nodes":[{"name":"a"}],"queues":[],"clients":[[],[]],"schedule":["c01"]}
bad_shape schedule[0] value | {"version":1,"cluster":"c","nodes":[{"name":"a"}],"queues":[],"clients":[[]],"schedule":["C0"]}
bad_shape schedule[0] value | {"version":1,"cluster":"c","nodes":[{"name":"a"}],"queues":[],"clients":[],"schedule":["n"]}
bad_shape schedule[0] reference | {"version":1,"cluster":"c","nodes":[{"name":"a"}],"queues":[],"clients":[],"schedule":["c0"]}
bad_shape schedule[1] reference | {"version":1,"cluster":"c","nodes":[{"name":"a"}],"queues":[],"clients":[[]],"schedule":["c0","c1"]}
bad_shape schedule[0] reference | {"version":1,"cluster":"c","nodes":[{"name":"a"}],"queues":[],"clients":[[]],"schedule":["c18446744073709551616"]}
bad_shape schedule[0] reference | {"version":1,"cluster":"c","nodes":[{"name":"a"}],"queues":[],"clients":[],"schedule":["n:"]}
bad_shape schedule[1] reference | {"version":1,"cluster":"c","nodes":[{"name":"a"}],"queues":[],"clients":[],"schedule":["n:a","n: a"]}
-- of two faults the earlier check wins
bad_shape $ unknown | {"version":2,"x":0}
bad_shape nodes[0].name name | {"version":1,"cluster":"c","nodes":[{"name":"A"}],"queues":0,"clients":[]}
bad_shape queues type | {"version":1,"cluster":"c","nodes":[{"name":"a"}],"queues":0,"clients":0}
bad_shape clients[0][0] type | {"version":1,"cluster":"c","nodes":[{"name":"a"}],"queues":[],"clients":[[5],5],"faults":0}
bad_shape clients[0][0].queue reference | {"version":1,"cluster":"c","nodes":[{"name":"a"}],"queues":[],"clients":[[{"do":"submit","queue":"q"}]],"schedule":0}
bad_shape clients[0][0] missing | {"version":1,"cluster":"c","nodes":[{"name":"a"},{"name":"b"}],"queues":[],"clients":[[{"do":"read","node":"a"}]],"faults":[{"node":"a"}]}
bad_shape faults[1] twice | {"version":1,"cluster":"c","nodes":[{"name":"a"},{"name":"b"}],"queues":[],"clients":[],"schedule":["x"],"faults":[{"node":"b","publication":1,"kind":"apply"},{"node":"b","publication":1,"kind":"apply"}]}
bad_shape clients[0][0].task.index missing | {"version":1,"cluster":"c","nodes":[{"name":"a"}],"queues":[{"name":"q","executor":"create_index"}],"clients":[[{"do":"submit","queue":"q","task":{"shards":"1"},"ack":{}}]]}
bad_shape clients[0][0].timeout range | {"version":1,"cluster":"c","nodes":[{"name":"a"}],"queues":[{"name":"q","executor":"create_index"}],"clients":[[{"ack":{},"timeout":4294967296,"task":{"index":"i"},"queue":"q","do":"submit"}]]}
bad_shape clients[0][1].ms missing | {"version":1,"cluster":"c","nodes":[{"name":"a"}],"queues":[],"clients":[[{"do":"close"},{"do":"sleep"},{"do":"close"}]]}
limit depth | {"version":1,"cluster":"c","nodes":[{"name":"a"}],"queues":[],"clients":[[{"do":"watch","node":"a","pred":{"all":[{"not":{"not":{"not":{"not":{"not":{"not":{"not":{"not":{"not":{"not":{"not":{"not":{"not":{"not":{"not":{"index":"i"}}}}}}}}}}}}}}}},0]},"timeout":1}]]}
bad_shape clients[0][0].pred.all[0] type | {"version":1,"cluster":"c","nodes":[{"name":"a"}],"queues":[],"clients":[[{"do":"watch","node":"a","pred":{"all":[0,{"not":{"not":{"not":{"not":{"not":{"not":{"not":{"not":{"not":{"not":{"not":{"not":{"not":{"not":{"not":{"index":"i"}}}}}}}}}}}}}}}}]},"timeout":1}]]}
bad_shape schedule[0] reference | {"version":1,"cluster":"c","nodes":[{"name":"a"},{"name":"b"}],"queues":[],"clients":[[],[]],"schedule":["c2"]}
-- a member that stands twice counts as the later one; a name may be spelled with escapes
bad_shape version version | {"version":1,"version":2}
bad_shape clients[0][0].do value | {"version":1,"cluster":"c","nodes":[{"name":"a"}],"queues":[{"name":"q","executor":"create_index"}],"clients":[[{"do":"submit","do":"wait","queue":"q"}]]}
bad_shape clients[0][0].pred.index type | {"version":1,"cluster":"c","nodes":[{"name":"a"}],"queues":[],"clients":[[{"do":"watch","node":"a","pred":{"index":"i","index":1},"timeout":1}]]}
bad_shape version version | {"\u0076ersion":2}
-- an await for an acknowledgement; right by the walk, and not built yet: an await for a watch
accepted | {"version":1,"cluster":"c","nodes":[{"name":"a"}],"queues":[{"name":"q","executor":"create_index"}],"clients":[[{"do":"submit","queue":"q","task":{"index":"i"},"ack":{"nodes":"all"}},{"do":"await","step":0,"for":"ack"}]]}
bad_shape $ not_built | {"version":1,"cluster":"c","nodes":[{"name":"a"}],"queues":[],"clients":[[{"do":"watch","node":"a","pred":{"index":"i"},"timeout":1},{"do":"await","step":0,"for":"watch"}]]}
-- acknowledgements
accepted | {"version":1,"cluster":"c","nodes":[{"name":"a"}],"queues":[{"name":"q","executor":"create_index"}],"clients":[[{"do":"submit","queue":"q","task":{"index":"i"},"ack":{"nodes":"all"}}]]}
accepted | {"version":1,"cluster":"c","nodes":[{"name":"a"},{"name":"b"}],"queues":[{"name":"q","executor":"create_index"}],"clients":[[{"do":"submit","queue":"q","task":{"index":"i"},"timeout":0,"ack":{"nodes":["b","a"],"timeout":4294967295}}]]}
-- watch, next, read and close
bad_shape $ not_built | {"version":1,"cluster":"c","nodes":[{"name":"a"}],"queues":[],"clients":[[{"do":"watch","node":"a","pred":{"index":"i"},"timeout":1}]]}
bad_shape $ not_built | {"version":1,"cluster":"c","nodes":[{"name":"a"}],"queues":[],"clients":[[{"do":"watch","node":"a","pred":{"not":{"all":[{"any":[]},{"version":18446744073709551615},{"setting":{"key":"","value":""}},{"node":"?"}]}},"then":[{"alias":"x"},{"alias":"x"},{"alias":"x"},{"alias":"x"},{"alias":"x"},{"alias":"x"},{"alias":"x"},{"alias":"x"}],"timeout":4294967295}]]}
bad_shape $ not_built | {"version":1,"cluster":"c","nodes":[{"name":"a"}],"queues":[],"clients":[[{"do":"watch","node":"a","pred":{"not":{"not":{"not":{"not":{"not":{"not":{"not":{"not":{"not":{"not":{"not":{"not":{"not":{"not":{"not":{"index":"i"}}}}}}}}}}}}}}}},"timeout":1}]]}
bad_shape $ not_built | {"version":1,"cluster":"c","nodes":[{"name":"a"}],"queues":[],"clients":[[{"do":"read","node":"a","index":""}]]}
bad_shape $ not_built | {"version":1,"cluster":"c","nodes":[{"name":"a"}],"queues":[],"clients":[[{"do":"close"}]]}
-- faults
bad_shape $ not_built | {"version":1,"cluster":"c","nodes":[{"name":"a"},{"name":"b"}],"queues":[],"clients":[],"faults":[{"node":"b","publication":1,"kind":"apply"}]}
bad_shape $ not_built | {"version":1,"cluster":"c","nodes":[{"name":"a"},{"name":"b"}],"queues":[],"clients":[],"faults":[{"node":"b","publication":4294967295,"kind":"unreachable"},{"node":"b","publication":1,"kind":"lost_commit"}]}
-- read
accepted | {"version":1,"cluster":"c","nodes":[{"name":"a"}],"queues":[],"clients":[]}
accepted | {"version":1,"cluster":"c","nodes":[{"name":"a"}],"queues":[],"clients":[[]]}
accepted | {"version":1,"cluster":"c","nodes":[{"name":"a","eligible":true,"member":true}],"queues":[],"clients":[],"faults":[],"schedule":[]}
accepted | {"version":1,"cluster":"c","nodes":[{"name":"a"}],"queues":[{"name":"c0","executor":"create_index","priority":"IMMEDIATE"},{"name":"d1","executor":"delete_index","priority":"URGENT"},{"name":"i2","executor":"index_settings","priority":"HIGH"},{"name":"o3","executor":"open_close","priority":"NORMAL"},{"name":"a4","executor":"aliases","priority":"LOW"},{"name":"a5","executor":"aliases_atomic","priority":"LANGUID"},{"name":"c6","executor":"cluster_settings","priority":"IMMEDIATE"},{"name":"n7","executor":"nodes","priority":"URGENT"},{"name":"r8","executor":"reelect","priority":"HIGH"}],"clients":[]}
accepted | {"version":1,"cluster":"c","nodes":[{"name":"a"}],"queues":[{"name":"q","executor":"create_index"}],"clients":[[{"do":"submit","queue":"q","task":{"index":"i"}},{"do":"submit","queue":"q","task":{"index":"i"}}]]}
accepted | {"version":1,"cluster":"c","nodes":[{"name":"a"}],"queues":[{"name":"q","executor":"create_index"}],"clients":[[{"do":"submit","queue":"q","task":{"index":"","shards":0,"replicas":18446744073709551615},"timeout":0}]]}
accepted | {"version":2,"version":1,"cluster":"C","cluster":"c","nodes":0,"nodes":[{"name":"A","name":"a"}],"queues":[],"clients":[[]]}
-- the tasks of each executor
accepted | {"version":1,"cluster":"c","nodes":[{"name":"a"}],"queues":[{"name":"q","executor":"delete_index"}],"clients":[[{"do":"submit","queue":"q","task":{"index":"i"}}]]}
accepted | {"version":1,"cluster":"c","nodes":[{"name":"a"}],"queues":[{"name":"q","executor":"index_settings"}],"clients":[[{"do":"submit","queue":"q","task":{"index":"i","key":"","value":18446744073709551615}}]]}
accepted | {"version":1,"cluster":"c","nodes":[{"name":"a"}],"queues":[{"name":"q","executor":"open_close"}],"clients":[[{"do":"submit","queue":"q","task":{"index":"i","open":false}}]]}
accepted | {"version":1,"cluster":"c","nodes":[{"name":"a"}],"queues":[{"name":"q","executor":"aliases"}],"clients":[[{"do":"submit","queue":"q","task":{"index":"i","alias":"x","action":"remove"}}]]}
accepted | {"version":1,"cluster":"c","nodes":[{"name":"a"}],"queues":[{"name":"q","executor":"aliases_atomic"}],"clients":[[{"do":"submit","queue":"q","task":{"index":"","alias":"","action":"add"}}]]}
accepted | {"version":1,"cluster":"c","nodes":[{"name":"a"}],"queues":[{"name":"q","executor":"cluster_settings"}],"clients":[[{"do":"submit","queue":"q","task":{"key":"k","value":null}}]]}
accepted | {"version":1,"cluster":"c","nodes":[{"name":"a"}],"queues":[{"name":"q","executor":"reelect"}],"clients":[[{"do":"submit","queue":"q","task":{}}]]}
accepted | {"version":1,"cluster":"c","nodes":[{"name":"a"}],"queues":[{"name":"q","executor":"nodes"}],"clients":[[{"do":"submit","queue":"q","task":{"node":"a","action":"leave"}}]]}
accepted | {"version":1,"cluster":"c","nodes":[{"name":"a"},{"name":"b","member":false}],"queues":[{"name":"q","executor":"nodes"}],"clients":[[{"do":"submit","queue":"q","task":{"node":"b","action":"join"}}]]}
-- several nodes
accepted | {"version":1,"cluster":"c","nodes":[{"name":"a"},{"name":"b"}],"queues":[],"clients":[]}
accepted | {"version":1,"cluster":"c","nodes":[{"name":"n0"},{"name":"n1"},{"name":"n2"},{"name":"n3"},{"name":"n4"},{"name":"n5"},{"name":"n6"},{"name":"n7"},{"name":"n8"},{"name":"n9"},{"name":"n10"},{"name":"n11"},{"name":"n12"},{"name":"n13"},{"name":"n14"},{"name":"n15"},{"name":"n16"},{"name":"n17"},{"name":"n18"},{"name":"n19"},{"name":"n20"},{"name":"n21"},{"name":"n22"},{"name":"n23"},{"name":"n24"},{"name":"n25"},{"name":"n26"},{"name":"n27"},{"name":"n28"},{"name":"n29"}],"queues":[],"clients":[]}
-- an await for a task
accepted | {"version":1,"cluster":"c","nodes":[{"name":"a"}],"queues":[{"name":"q","executor":"create_index"}],"clients":[[{"do":"submit","queue":"q","task":{"index":"i"}},{"do":"await","step":0,"for":"task"}]]}
-- several clients, a schedule, a timeout, a sleep
accepted | {"version":1,"cluster":"c","nodes":[{"name":"a"}],"queues":[],"clients":[[],[]]}
accepted | {"version":1,"cluster":"c","nodes":[{"name":"a"}],"queues":[],"clients":[[],[],[],[],[],[],[],[],[],[],[],[],[],[],[],[],[],[],[],[],[],[],[],[],[],[],[],[],[],[],[],[]],"schedule":["c31"]}
accepted | {"version":1,"cluster":"c","nodes":[{"name":"a"}],"queues":[],"clients":[],"schedule":["m"]}
accepted | {"version":1,"cluster":"c","nodes":[{"name":"a"},{"name":"b","member":false}],"queues":[],"clients":[[],[]],"schedule":["n:b","c1","m","c0","c0","n:a"]}
accepted | {"version":1,"cluster":"c","nodes":[{"name":"a"}],"queues":[{"name":"q","executor":"create_index"}],"clients":[[{"do":"submit","queue":"q","task":{"index":"i"},"timeout":1}]]}
accepted | {"version":1,"cluster":"c","nodes":[{"name":"a"}],"queues":[{"name":"q","executor":"create_index"}],"clients":[[{"do":"submit","queue":"q","task":{"index":"i"},"timeout":4294967295}]]}
accepted | {"version":1,"cluster":"c","nodes":[{"name":"a"}],"queues":[],"clients":[[{"do":"sleep","ms":0}]]}
accepted | {"version":1,"cluster":"c","nodes":[{"name":"a"}],"queues":[],"clients":[[{"do":"sleep","ms":4294967295}]]}"#;

/// What the program says of a text after the word `refused`, or that it is accepted.
fn says(alloc: Global, text: &str) -> Result<String, Fail> {
    match read_script(alloc, text.as_bytes()) {
        Ok(_) => Ok(String::from_str(alloc, "accepted")?),
        Err(refusal) => Ok(format!(in alloc; "{refusal}")?),
    }
}

#[test]
fn each_script_comes_to_what_the_table_says(rt: HostRuntime) -> Result<(), Fail> {
    let alloc = rt.alloc();
    let mut checked: u32 = 0;
    for line in TABLE.lines() {
        if line.starts_with("--") {
            continue;
        }
        let Some((expected, script)) = line.split_once(" | ") else {
            return Err(Fail::from("a line of the table has no bar"));
        };
        let said = says(alloc, script)?;
        assert_eq!(rt; said.as_str(), expected);
        checked = u32::saturating_add(checked, 1);
    }
    assert_eq!(rt; checked, 281);
    Ok(())
}
