// Document 02, Ask 12: a burst of eight bits changes the CRC; on `crc`. No code is here.
#![tactic(auto)]
