// What a loss of transport packets costs (02, §2), and that what transport_write writes is handed on by transport, as theorems over the definitions of
// both. There is no code here. A well-formed stream is in specs/Stream.antt, the promise in specs/Promise.antt, every legal way to write sections in
// specs/Encoder.antt, and the packets that transport_write writes of many sections in specs/Writer.antt.
#![tactic(auto)]
