//! Header blocks.

pub const ROWS: &str = "\
fields by the static table's entries and names
  must RFC 7541, 3.2: \"a decoder MUST obey the following rules\"; 6.1, 6.2.2
  control same 1 3
  request 1
  await answered 1
  ~request 3
  !headers 3 04 83 86 04 str:/grpc.testing.TestService/EmptyCall 01 str:localhost te=trailers 0f10 str:application/grpc
  !data 3 01 0000000000
  want same 1 3

literals that become entries
  must RFC 7541, 3.2: \"a decoder MUST obey the following rules\"; 6.2.1
  needs table at least 4096
  control same 1 3
  request 1
  await answered 1
  ~request 3
  !headers 3 04 83 86 44 str:/grpc.testing.TestService/EmptyCall 41 str:localhost 40 str:te str:trailers 5f str:application/grpc
  !data 3 01 0000000000
  want same 1 3

literals that are never indexed
  must RFC 7541, 3.2: \"a decoder MUST obey the following rules\"; 6.2.3
  control same 1 3
  request 1
  await answered 1
  ~request 3
  !headers 3 04 call:EmptyCall 10 str:x str:a 1f2b str:a/1
  !data 3 01 0000000000
  want same 1 3

Huffman's code
  must RFC 7541, 3.2: \"a decoder MUST obey the following rules\"; 5.2
  control same 1 3
  request 1
  await answered 1
  ~request 3
  !headers 3 04 83 86 04 9a626b2b22e92a126aa65f79509dc5b3b9885630535a7d5e1d147f 01 86a0e41d139d09 00 82497f 864d833505b11f 0f10 8b1d75d0620d263d4c4d6564
  !data 3 01 0000000000
  want same 1 3

Huffman's code with seven bits of padding
  must RFC 7541, 3.2: \"a decoder MUST obey the following rules\"; 5.2
  control same 1 3
  request 1
  await answered 1
  ~request 3
  !headers 3 04 call:EmptyCall 00 str:x 84 18c631ff
  !data 3 01 0000000000
  want same 1 3

an empty value, and an empty value by Huffman's code
  must RFC 7541, 3.2: \"a decoder MUST obey the following rules\"; 5.2
  control same 1 3
  request 1
  await answered 1
  ~request 3
  !headers 3 04 call:EmptyCall x= 00 str:y 80
  !data 3 01 0000000000
  want same 1 3

an entry that a later block names
  must RFC 7541, 3.2: \"a decoder MUST obey the following rules\"; 2.3.2
  needs table at least 4096
  control same 1 3
  ~request 1
  !headers 1 04 call:EmptyCall 40 str:x str:a
  !data 1 01 0000000000
  await answered 1
  ~request 3
  !headers 3 04 call:EmptyCall be
  !data 3 01 0000000000
  want same 1 3

all fields of a call by entries of an earlier block
  must RFC 7541, 3.2: \"a decoder MUST obey the following rules\"; 2.3.3: the newest has index 62
  needs table at least 4096
  control same 1 3
  ~request 1
  !headers 1 04 83 86 44 str:/grpc.testing.TestService/EmptyCall 41 str:localhost 40 str:te str:trailers 5f str:application/grpc
  !data 1 01 0000000000
  await answered 1
  ~request 3
  !headers 3 04 83 86 c1 c0 bf be
  !data 3 01 0000000000
  want same 1 3

an entry that the same block names
  must RFC 7541, 3.2: \"a decoder MUST obey the following rules\"; 2.3.2
  needs table at least 4096
  control same 1 3
  request 1
  await answered 1
  ~request 3
  !headers 3 04 call:EmptyCall 40 str:x str:a be
  !data 3 01 0000000000
  want same 1 3

an entry's name with another value
  must RFC 7541, 3.2: \"a decoder MUST obey the following rules\"; 6.2.1
  needs table at least 4096
  control same 1 3
  ~request 1
  !headers 1 04 call:EmptyCall 40 str:x str:a
  !data 1 01 0000000000
  await answered 1
  ~request 3
  !headers 3 04 call:EmptyCall 7e str:b be
  !data 3 01 0000000000
  want same 1 3

a change of the table's size to 0 and back
  should RFC 7541, 4.2, 6.3: the format; \"at most two dynamic table size updates\"
  needs table at least 4096
  control same 1 3
  request 1
  await answered 1
  ~request 3
  !headers 3 04 20 3fe11f call:EmptyCall 40 str:x str:a be
  !data 3 01 0000000000
  want same 1 3

a change of the table's size to what it is
  should RFC 7541, 6.3: the format; up to \"the limit determined by the protocol\"
  needs table at least 4096
  control same 1 3
  request 1
  await answered 1
  ~request 3
  !headers 3 04 3fe11f call:EmptyCall
  !data 3 01 0000000000
  want same 1 3

three changes of the table's size
  ours several may stand before the first field
  needs table at least 4096
  headers 1 04 20 3f09 3fe11f call:EmptyCall
  data 1 01 0000000000
  want answered 1

a table of 40 bytes keeps one entry of 34
  must RFC 7541, 3.2: \"a decoder MUST obey the following rules\"; 4.1, 4.4
  needs table at least 4096
  control same 1 3
  ~request 1
  !headers 1 04 3f09 call:EmptyCall 40 str:x str:a 40 str:y str:b
  !data 1 01 0000000000
  await answered 1
  ~request 3
  !headers 3 04 call:EmptyCall be
  !data 3 01 0000000000
  want same 1 3

the entry that fell out of a table of 40 bytes
  must RFC 7541, 2.3.3: \"MUST be treated as a decoding error\"; RFC 9113, 4.3
  needs table at least 4096
  headers 1 04 3f09 call:EmptyCall 40 str:x str:a 40 str:y str:b
  data 1 01 0000000000
  await answered 1
  headers 3 05 call:EmptyCall bf
  want connection 1 2 9

a change to size 0 drops all entries
  must RFC 7541, 2.3.3: \"MUST be treated as a decoding error\"; 4.3; RFC 9113, 4.3
  needs table at least 4096
  headers 1 04 call:EmptyCall 40 str:x str:a
  data 1 01 0000000000
  await answered 1
  headers 3 05 20 call:EmptyCall be
  want connection 1 2 9

an entry that is larger than the table drops all entries
  must RFC 7541, 2.3.3: \"MUST be treated as a decoding error\"; 4.4; RFC 9113, 4.3
  needs table at least 4096
  headers 1 04 3f09 call:EmptyCall 40 str:x str:a 40 str:y str:0123456789
  data 1 01 0000000000
  await answered 1
  headers 3 05 call:EmptyCall be
  want connection 1 2 9

entries of a malformed request stay
  must RFC 9113, 4.3: \"MUST terminate the connection .. if it does not decompress a field block\"
  needs streams at least 2
  needs table at least 4096
  control answered 3
  headers 1 04 call:EmptyCall 40 str:x str:a !X=a
  headers 3 04 call:EmptyCall be
  data 3 01 0000000000
  want answered 3
  want connection 1 2 9

entries of a block on a stream that was reset stay
  must RFC 9113, 4.3: \"MUST terminate the connection .. if it does not decompress a field block\"
  needs table at least 4096
  needs streams at least 2
  control answered 3
  headers 1 04 call:FullDuplexCall ~40 ~str:x ~str:a
  reset 1 00 00000008
  !headers 1 05 40 str:x str:a
  headers 3 04 call:EmptyCall be
  data 3 01 0000000000
  want answered 3
  want connection 1 2 5 9

index 0
  must RFC 7541, 6.1: \"MUST be treated as a decoding error\"; RFC 9113, 4.3
  headers 1 05 call:EmptyCall 80
  want connection 1 2 9

the first index past both tables
  must RFC 7541, 2.3.3: \"MUST be treated as a decoding error\"; RFC 9113, 4.3
  headers 1 05 call:EmptyCall be
  want connection 1 2 9

an index far past both tables
  must RFC 7541, 2.3.3: \"MUST be treated as a decoding error\"; RFC 9113, 4.3
  headers 1 05 call:EmptyCall ffffff7f
  want connection 1 2 9

a literal whose name's index is past both tables
  must RFC 7541, 2.3.3: \"MUST be treated as a decoding error\"; RFC 9113, 4.3
  headers 1 05 call:EmptyCall 7e str:a
  want connection 1 2 9

a literal without indexing whose name's index is past both tables
  must RFC 7541, 2.3.3: \"MUST be treated as a decoding error\"; RFC 9113, 4.3
  headers 1 05 call:EmptyCall 0f2f str:a
  want connection 1 2 9

an integer of 70 bits
  must RFC 7541, 5.1: \"MUST be treated as decoding errors\"; RFC 9113, 4.3
  headers 1 05 call:EmptyCall ffffffffffffffffffff7f
  want connection 1 2 9

an integer without an end
  must RFC 9113, 4.3: \"A decoding error in a field block MUST be treated as a connection error\"
  headers 1 05 call:EmptyCall ffff
  want connection 1 2 9

a name without a value
  must RFC 9113, 4.3: \"A decoding error in a field block MUST be treated as a connection error\"
  headers 1 05 call:EmptyCall 00 str:x
  want connection 1 2 9

a value that is longer than the block
  must RFC 9113, 4.3: \"A decoding error in a field block MUST be treated as a connection error\"
  headers 1 05 call:EmptyCall 00 str:x 0561
  want connection 1 2 9

Huffman's code with a byte of padding
  must RFC 7541, 5.2: \"MUST be treated as a decoding error\"; RFC 9113, 4.3
  headers 1 05 call:EmptyCall 00 str:x 82 1fff
  want connection 1 2 9

Huffman's code with padding of zeros
  must RFC 7541, 5.2: \"MUST be treated as a decoding error\"; RFC 9113, 4.3
  headers 1 05 call:EmptyCall 00 str:x 81 18
  want connection 1 2 9

Huffman's code with EOS
  must RFC 7541, 5.2: \"MUST be treated as a decoding error\"; RFC 9113, 4.3
  headers 1 05 call:EmptyCall 00 str:x 84 ffffffff
  want connection 1 2 9

a change of size over what SETTINGS allow
  must RFC 7541, 6.3: \"A value that exceeds this limit MUST be treated as a decoding error\"
  needs table at most 4294967294
  headers 1 05 size:table+1 call:EmptyCall
  want connection 1 2 9

a change of size after a field
  should RFC 7541, 4.2: \"MUST occur at the beginning\" (it binds the encoder)
  headers 1 04 call:EmptyCall 20
  data 1 01 0000000000
  want connection 1 2 9

the server's table at SETTINGS_HEADER_TABLE_SIZE 0
  should RFC 7541, 4.2: \"MUST occur at the beginning\" (RFC 9113, 4.3.1: of a table with entries)
  settings 0 00 000100000000
  await acks 2
  request 1
  await answered 1
  want block 1 20

the server's table at 0 and then 4,096 in one SETTINGS
  should RFC 7541, 4.2: \"the smallest .. MUST be signaled\" (RFC 9113, 6.5: the last value counts)
  settings 0 00 000100000000 000100001000
  await acks 2
  request 1
  await answered 1
  want block 1 20
  want connection 1 2 11
";
